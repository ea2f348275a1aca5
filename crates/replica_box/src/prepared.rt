ghost use Rattle.std.specs.Prelude.{◌≡◌, ◌↔◌, IfOk, IsTrue, true, false};
ghost use Rattle.durable_node.specs.Log.{CanBeKept, IsShort, record_of};
ghost use Rattle.replica_box.specs.Hosting.{digest_past, record_for};

use durable_node::{Record, record_of};
use node_core::Event;
use seq_base::NoMemory;
use std::alloc::Global;
use std::marker::Model;

/// An event that is prepared, with its record. An event whose turn changes nothing has none. The running digests of the log
/// are those before it and after it.
pub(crate) struct Prepared {
    event: Event,
    record: Option<Vec<u8>>,
    before: [u8; 32],
    after: [u8; 32],
}

impl Drop for Prepared {
    fn drop(self) {
        let Prepared {
            event: _,
            record: _,
            before: _,
            after: _,
        } = self;
    }
}

impl Model for Prepared {
    ghost use Rattle.std.specs.Prelude.{◌≡◌};
    ghost use Rattle.std.specs.Option.{ForSome, is_some};
    ghost use Rattle.durable_node.specs.Log.{CanBeKept, record_of};
    ghost use Rattle.replica_box.specs.Hosting.{Prepared, digest_past};

    ghost Value = { Prepared };

    ghost view = { λ r. record { event = r.event; has_record = is_some r.record; digest = r.before } };

    ghost invariant = { λ r. ForSome r.record (λ bytes. (bytes.items ≡ record_of r.before r.event) × CanBeKept r.event)
        × (r.after ≡ digest_past (record { event = r.event; has_record = is_some r.record; digest = r.before })) };
}

impl Prepared {
    /// Makes the record of an event that fits one.
    pub(crate) fn with_record(
        alloc: Global,
        digest: &[u8; 32],
        event: Event,
    ) -> Result<Prepared, NoMemory>
        requires { IsShort event }
        ensures prepared { IfOk result (λ prepared. prepared ≡ record { event = event; has_record = true; digest = digest.now }) }
        ensures can { IfOk result (λ prepared. CanBeKept event) }
    {
        let Record {
            bytes,
            digest: after,
        } = record_of(alloc, digest, &event)?;
        let before = *digest;
        Ok(Prepared {
            event,
            record: Some(bytes),
            before,
            after,
        })
    }

    /// An event whose turn changes nothing.
    pub(crate) fn without_record(digest: &[u8; 32], event: Event) -> Prepared
        ensures { result ≡ record { event = event; has_record = false; digest = digest.now } }
    {
        let before = *digest;
        let after = *digest;
        Prepared {
            event,
            record: None,
            before,
            after,
        }
    }

    /// The running digest of the log after it.
    pub(crate) fn digest(&self) -> [u8; 32]
        ensures { result ≡ digest_past self.now }
    {
        self.after
    }

    pub(crate) fn event(&self) -> &Event
        ensures value { result.now ≡ self.now.event }
        ensures can { self.now.has_record ≡ true → CanBeKept self.now.event }
    {
        &self.event
    }

    pub(crate) fn has_record(&self) -> bool
        ensures { result ≡ self.now.has_record }
    {
        self.record.is_some()
    }

    /// Its record, which is empty where it has none.
    pub(crate) fn record(&self) -> &[u8]
        ensures { result.now ≡ record_for self.now }
    {
        match &self.record {
            Some(record) => record.as_slice(),
            None => &[],
        }
    }
}
