//! A keeper that fails at its first read: the node does not start, and says that the keeper failed.
ghost use Rattle.std.specs.Prelude.{if◌then◌else◌};

use crate::journal::{KEYS, STOPPED};
use durable_node::{DurableNode, KeepFault, Keeper, KeptFault, SteadyKeeper};
use seal_kit::{Height, SealMaker, TagMaker};
use seq_base::Setting;
use std::alloc::Global;
use std::test::Fail;

/// A keeper whose first read fails.
#[derive(Drop)]
struct UnreadKeeper {
    inner: SteadyKeeper,
    failed: bool,
}

impl Keeper for UnreadKeeper {
    ghost bytes = { λ k. k.inner.bytes };

    ghost durable_size = { λ k. k.inner.durable_size };

    ghost faults = { λ k. if k.failed then 1 else 0 };

    ghost openings = { λ k. k.inner.openings };

    ghost begun = { λ k. k.inner.begun };

    fn read(&mut self, at: u64, into: &mut [u8]) -> Result<usize, KeepFault> {
        if !self.failed {
            self.failed = true;
            return Err(KeepFault::Failed);
        }
        self.inner.read(at, into)
    }

    fn begin(&mut self, size: u64) -> Result<(), KeepFault> {
        self.inner.begin(size)
    }

    fn append(&mut self, piece: &[u8]) -> Result<(), KeepFault> {
        self.inner.append(piece)
    }

    fn sync(&mut self) -> Result<(), KeepFault> {
        self.inner.sync()
    }

    fn stop(&mut self) {
        self.inner.stop();
    }
}

/// Why a replica does not start over an empty log; None if it starts. `failed` says whether the keeper's first read was before.
fn refusal(alloc: Global, failed: bool) -> Result<Option<KeptFault>, Fail> {
    let setting = Setting::new(5, 1, 1, 1)?;
    let mut kit = TagMaker::new(alloc).make(7, Height::H5, 5)?;
    let sealer = kit.sealers.remove(STOPPED);
    let keeper = UnreadKeeper {
        inner: SteadyKeeper::new(alloc),
        failed,
    };
    match DurableNode::start(
        alloc,
        setting,
        6,
        Height::H5,
        &KEYS,
        sealer,
        &kit.checker,
        keeper,
    ) {
        Ok(_) => Ok(None),
        Err((_, fault)) => Ok(Some(fault)),
    }
}

#[test]
fn a_log_that_cannot_be_read_is_the_keepers_fault(rt: HostRuntime) -> Result<(), Fail> {
    let alloc = rt.alloc();
    assert!(rt; refusal(alloc, false)? == Some(KeptFault::Keep));
    assert!(rt; refusal(alloc, true)? == None);
    Ok(())
}
