//! The passes of a mailbox. At run time they have no other bytes than the fields below.
use crate::envelope::Envelope;
use crate::rule::Mail;
use crossbeam_queue::SegPass;
use std::marker::Model;

/// The right to send as one sender. Contracts see the mailbox, the sender's number and what it has sent.
pub struct SendPass {
    pub(crate) pass: SegPass<Envelope, Mail>,
    pub(crate) from: u32,
    /// The number of sends.
    pub(crate) count: u64,
}

impl Drop for SendPass {
    fn drop(self) {
        let SendPass {
            pass: _,
            from: _,
            count: _,
        } = self;
    }
}

impl Model for SendPass {
    ghost use Rattle.mailbox.specs.Boxes.{Sender};

    ghost Value = { Sender };

    ghost use Rattle.mailbox.specs.Passes.{sender_by, IsSendPass};

    ghost view = { sender_by };

    ghost invariant = { IsSendPass };
}

/// The right to receive. Contracts see the mailbox, the number of senders and what was received.
pub struct TakePass {
    pub(crate) pass: SegPass<Envelope, Mail>,
    /// The number of envelopes received from each sender.
    pub(crate) counts: Vec<u64>,
}

impl Drop for TakePass {
    fn drop(self) {
        let TakePass { pass: _, counts: _ } = self;
    }
}

impl Model for TakePass {
    ghost use Rattle.mailbox.specs.Boxes.{Receiver};

    ghost Value = { Receiver };

    ghost use Rattle.mailbox.specs.Passes.{receiver_by, IsTakePass};

    ghost view = { receiver_by };

    ghost invariant = { IsTakePass };
}
