//! The calls that the program makes: from arguments and bytes to bytes and a status. The arguments name a command. The
//! call reads the input of that command, makes its text, and writes it. The program above hands in the standard streams
//! and relies on the clauses of [`themis`] alone: they carry the headline. This crate stands on every layer below. Its
//! tests are in `tests_calls`.
#![tactic(auto)]

mod auditing;
mod command;
mod input;
mod making;
mod ordering;
mod outcome;
mod output;
mod parsing;
mod program;
mod replaying;
mod reported;
mod running;

pub use command::{Command, after_name, asks_to_run, unheard};
pub use outcome::{Outcome, Status, StatusLine};
pub use program::{themis, themis_alone};
