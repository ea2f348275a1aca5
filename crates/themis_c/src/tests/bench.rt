//! A handle with the variables that its calls write.
use crate::opening::{themis_free, themis_header, themis_open};
use crate::{CRole, Handle, OK};
use std::alloc::Global;
use std::test::Fail;

/// The public key of height 5 that grows from 48 bytes 7, and the one from 48 bytes 8. They were computed in Python by
/// RFC 8554.
pub(crate) const KEY: [u8; 60] = [
    0, 0, 0, 1, 0, 0, 0, 5, 0, 0, 0, 3, 7, 7, 7, 7, 7, 7, 7, 7, 7, 7, 7, 7, 7, 7, 7, 7, 156, 242,
    160, 85, 65, 137, 63, 94, 171, 19, 167, 132, 49, 149, 208, 148, 24, 149, 191, 21, 26, 41, 162,
    109, 97, 143, 154, 110, 93, 121, 109, 193,
];

/// A role in a run of one replica.
pub(crate) fn role(n: u32, views: u32, me: u32, height: u32) -> CRole {
    CRole {
        n,
        f: 0,
        p: 1,
        q: 1,
        views,
        me,
        height,
    }
}

pub(crate) struct Bench {
    pub(crate) alloc: Global,
    pub(crate) handle: Handle,
    /// What a call copies goes here.
    pub(crate) buffer: [u8; 8192],
    pub(crate) size: usize,
    pub(crate) count: usize,
    pub(crate) number: u32,
}

impl Drop for Bench {
    fn drop(self) {
        let Bench {
            alloc: _,
            handle,
            buffer: _,
            size: _,
            count: _,
            number: _,
        } = self;
        handle.end();
    }
}

impl Bench {
    pub(crate) fn new(alloc: Global) -> Bench {
        Bench {
            alloc,
            handle: Handle::vacant(alloc),
            buffer: [0; 8192],
            size: 0,
            count: 0,
            number: 0,
        }
    }

    /// Opens the handle, with a secret of equal bytes. Writes how many bytes of the log are used into `size`.
    pub(crate) fn open(&mut self, role: &CRole, secret: u8, keys: &[[u8; 60]], log: &[u8]) -> u32 {
        let used = &mut self.size;
        themis_open(
            self.alloc,
            &mut self.handle,
            role,
            &[secret; 48],
            keys,
            log,
            used,
        )
    }

    /// Opens the only replica of a run of four views.
    pub(crate) fn open_one(&mut self, log: &[u8]) -> u32 {
        self.open(&role(1, 4, 0, 5), 7, &[KEY], log)
    }

    /// The header of its log.
    pub(crate) fn header(&mut self) -> Result<Vec<u8>, Fail> {
        let status = themis_header(
            self.alloc,
            &mut self.handle,
            &mut self.buffer,
            &mut self.size,
        );
        if status != OK {
            return Err(Fail::new("no header"));
        }
        self.copied()
    }

    /// What the last call copied.
    pub(crate) fn copied(&self) -> Result<Vec<u8>, Fail> {
        let bytes = self.buffer.get(..self.size).unwrap_or(&[]);
        Ok(bytes.to_vec(self.alloc)?)
    }

    pub(crate) fn free(&mut self) {
        themis_free(self.alloc, &mut self.handle);
    }
}
