//! The rule of the mailbox, and what each step guarantees.
use crate::envelope::Envelope;
use crossbeam_queue::protocol::{Join, Lesson, Outcome, Protocol, Split};
use seq_base::Packet;
use std::collections::LinkedList;

/// A note to the receiver that a sender had sent this. No value of this type exists at run time.
pub struct News {
    pub from: u32,
    pub sent: LinkedList<Packet>,
}

/// What a pass knows: whether it sends, as which sender, and what it sent; whether it receives; how many senders were
/// made; a prefix of what was received; and its notes of what senders sent. No value of this type exists at run time.
pub(crate) struct Mail {
    pub(crate) sends: bool,
    pub(crate) takes: bool,
    pub(crate) from: u32,
    pub(crate) made: u32,
    pub(crate) sent: LinkedList<Packet>,
    pub(crate) got: LinkedList<Envelope>,
    pub(crate) heard: LinkedList<News>,
}

pub(crate) struct Post;

impl Protocol<Envelope, Mail> for Post {
    ghost use Rattle.std.specs.Prelude.{[]};
    ghost use Rattle.mailbox.specs.Mail.{Delivers, receiver};

    ghost holds = { Delivers };

    ghost first = { receiver 0 [] [] };
}

/// An envelope is put into the mailbox.
pub(crate) struct Puts;

impl Outcome<Envelope, Mail> for Puts {
    ghost use Rattle.mailbox.specs.Mail.{Sent};

    ghost then = { Sent };
}

/// An envelope is taken, or the mailbox was empty.
pub(crate) struct Gets;

impl Outcome<Envelope, Mail> for Gets {
    ghost use Rattle.mailbox.specs.Mail.{Taken};

    ghost then = { Taken };
}

impl Lesson<Envelope, Mail> for Gets {
    ghost use Rattle.mailbox.specs.Mail.{Shows};

    ghost fact = { Shows };
}

/// A sender compares its note of what was received with what it sent.
pub(crate) struct Compares;

impl Lesson<Envelope, Mail> for Compares {
    ghost use Rattle.mailbox.specs.Mail.{HasPrefix};

    ghost fact = { λ v items. HasPrefix v };
}

/// The receiver's pass makes the pass of one more sender.
pub(crate) struct Deals;

impl Split<Mail> for Deals {
    ghost use Rattle.std.specs.Prelude.{[]};
    ghost use Rattle.mailbox.specs.Mail.{dealt, sender};

    ghost left = { dealt };

    ghost right = { λ v. sender v.made [] [] };
}

/// A note of what was received goes from the receiver to a sender.
pub(crate) struct Notes;

impl Split<Mail> for Notes {
    ghost use Rattle.mailbox.specs.Mail.{note};

    ghost left = { λ v. v };

    ghost right = { λ v. note v.got };
}

impl Join<Mail> for Notes {
    ghost use Rattle.std.specs.Prelude.{[]};
    ghost use Rattle.mailbox.specs.Mail.{reported, note};

    ghost both = { reported };

    ghost spent = { note [] };
}

/// A note of what a sender has sent goes to the receiver.
pub(crate) struct Reports;

impl Split<Mail> for Reports {
    ghost use Rattle.mailbox.specs.Mail.{tale};

    ghost left = { λ v. v };

    ghost right = { λ v. tale v.from v.sent };
}

impl Join<Mail> for Reports {
    ghost use Rattle.std.specs.Prelude.{[]};
    ghost use Rattle.mailbox.specs.Mail.{hears, note};

    ghost both = { hears };

    ghost spent = { note [] };
}
