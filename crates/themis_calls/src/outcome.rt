ghost use Rattle.std.specs.Prelude.{◌≡◌};
ghost use Rattle.std.specs.Option.{option_map};
ghost use Rattle.themis_calls.specs.Statuses.{number_of, reported_of};

use plan_text::PlanFault;
use run_record::{CollidedAt, ForgedAt, RunRecord};
use seq_base::Tx;
use std::fmt;

/// How a call of the program ended. Its number is the exit status.
#[derive(Drop)]
pub enum Status {
    /// The text is written. The proposal is complete; or every due transaction was finalised; or the plan was made; or
    /// the record conforms to the protocol.
    Done,
    /// The source failed. Nothing is written.
    ReadFault,
    /// The sink failed. It has a prefix of the text.
    WriteFault,
    /// The arguments name no command. Nothing is read or written.
    BadWords,
    /// The input has a fault. This is the first one. Nothing is written.
    BadPlan(PlanFault),
    /// The input is longer than 1,048,576 bytes, or 67,108,864 for `audit`. Nothing is written.
    TooLong,
    /// A pair of the proposal is missing. This is the least one. The text is written.
    Open(Tx, Tx),
    /// The run reached its last turn or tick before every due transaction was finalised. The text is written.
    Stalled { turns: u32, ticks: u32 },
    /// A seal in the run is forged. The text is written.
    Forged(ForgedAt),
    /// Two blocks of the run have the same digest. The text is written.
    Collided(CollidedAt),
    /// Out of memory. Nothing is written.
    NoMemory,
    /// The input is no trace. `at` is the place of the first faulty field, counted from 0. Nothing is written.
    BadTrace { at: u64 },
    /// An honest replica in the trace breaks a rule. This is the first violation: at this entry of the journal, or
    /// after the last entry. The text is written.
    Unlawful { replica: u32, entry: u32, rule: u32 },
}

impl Status {
    /// The exit status of the program.
    pub fn number(&self) -> u8
        ensures { result ≡ number_of self.now }
    {
        match self {
            Status::Done => 0,
            Status::ReadFault => 1,
            Status::WriteFault => 2,
            Status::BadWords => 3,
            Status::BadPlan(_) => 4,
            Status::TooLong => 5,
            Status::Open(_, _) => 6,
            Status::Stalled { .. } => 7,
            Status::Forged(_) => 8,
            Status::Collided(_) => 9,
            Status::NoMemory => 10,
            Status::BadTrace { .. } => 11,
            Status::Unlawful { .. } => 12,
        }
    }

    /// The line for standard error: one for each status but Done.
    pub fn line(&self) -> Option<StatusLine<'_>>
        ensures { option_map (λ line. line.status.now) result ≡ reported_of self.now }
    {
        match self {
            Status::Done => None,
            status => Some(StatusLine { status }),
        }
    }
}

/// A status, printed after the program's name.
#[derive(Clone, Copy)]
pub struct StatusLine<'a> {
    status: &'a Status,
}

impl fmt::Display for StatusLine<'_> {
    ghost use Rattle.std.specs.Prelude.{Some};
    ghost use Rattle.themis_calls.specs.Statuses.{line_words};

    ghost output = { λ line. Some (line_words line.status.now) };

    fn fmt<W: fmt::Write>(&self, f: &mut fmt::Formatter<W>) -> fmt::Result {
        let status = self.status;
        write!(f, "themis: {status}")
    }
}

/// The words of a status.
impl fmt::Display for Status {
    ghost use Rattle.std.specs.Prelude.{Some};
    ghost use Rattle.themis_calls.specs.Statuses.{status_words};

    ghost output = { λ status. Some (status_words status) };

    fn fmt<W: fmt::Write>(&self, f: &mut fmt::Formatter<W>) -> fmt::Result {
        match self {
            Status::Done => write!(f, "done"),
            Status::ReadFault => write!(f, "read fault"),
            Status::WriteFault => write!(f, "write fault"),
            Status::BadWords => write!(f, "bad words"),
            Status::BadPlan(fault) => write!(f, "bad plan: {fault}"),
            Status::TooLong => write!(f, "too long"),
            Status::Open(_, _) => write!(f, "open"),
            Status::Stalled { .. } => write!(f, "stalled"),
            Status::Forged(_) => write!(f, "forged"),
            Status::Collided(_) => write!(f, "collided"),
            Status::NoMemory => write!(f, "no memory"),
            Status::BadTrace { .. } => write!(f, "bad trace"),
            Status::Unlawful { .. } => write!(f, "unlawful"),
        }
    }
}

/// The result of a call of the program.
#[derive(Drop)]
pub struct Outcome {
    pub status: Status,
    /// The run that was played or audited, if its text was made.
    pub run: Option<RunRecord>,
    /// How many bytes were taken from the source.
    pub used: u64,
}
