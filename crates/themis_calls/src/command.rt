ghost use Rattle.std.specs.Prelude.{◌≡◌, ◌≢◌, ◌<◌, ◌↔◌, ◌∷◌, [], codes, drop, IsTrue, IfSome, IfNone};
ghost use Rattle.themis_calls.specs.Commands.{Names, AreWords, AreInRange, IsCommand, words_of, words_from};
ghost use Rattle.themis_calls.specs.declared.command.Command.{Command};
ghost use Rattle.themis_calls.specs.declared.command.Command.TheVariants.{Run};

use crate::Status;
use seq_base::{parse_u32, parse_u64};
use std::io::ErrorKind;

/// The maximum seed of a made plan: numbers of a plan are those of TOML, which are signed.
const MAX_SEED: u64 = 0x7fff_ffff_ffff_ffff;

/// The maximum number of transactions of a made plan.
const MAX_MADE: u32 = 8000;

/// A command, with its numbers.
#[derive(Clone, Copy, PartialEq, Eq)]
pub enum Command {
    /// The batches of one proposal, from the local orders of the input.
    Order,
    /// The same batches, each followed by a line in which each transaction has a majority over the next.
    Line,
    /// The batches of every honest replica, from the plan of the input.
    Replay,
    /// The same of a run in which every replica is a thread, from the plan of the input.
    Run,
    /// The record of the run, from the plan of the input.
    Trace,
    /// Whether the record in the trace of the input obeys the protocol.
    Audit,
    /// A plan in which each of five replicas receives `count` transactions.
    Make { seed: u64, count: u32 },
}

/// The arguments: the words after the program's name.
pub fn after_name(words: &[String]) -> &[String]
    ensures { result.now ≡ drop 1 words.now }
{
    match words.split_first() {
        Some((_, following)) => following,
        None => words,
    }
}

/// The status of a call whose arguments could not be read. An argument that is no text is no command.
pub fn unheard(kind: ErrorKind) -> Status
    ensures memory { kind ≡ ErrorKind.OutOfMemory → result ≡ Status.NoMemory }
    ensures text { kind ≢ ErrorKind.OutOfMemory → result ≡ Status.BadWords }
{
    match kind {
        ErrorKind::OutOfMemory => Status::NoMemory,
        _ => Status::BadWords,
    }
}

/// The command that the arguments name. It allocates nothing.
pub(crate) fn command_of(words: &[String]) -> Option<Command>
    ensures some { IfSome result (λ command. Names words.now command) }
    ensures none { IfNone result (¬ AreWords words.now) }
{
    match words {
        [word] => command_from(word.as_str(), None),
        [word, seed, count] => command_from(word.as_str(), Some((seed.as_str(), count.as_str()))),
        _ => None,
    }
}

/// Whether the only argument is `run`. It allocates nothing.
#[tactic(auto, using(crate::proofs::OneCommand::asks))]
pub fn asks_to_run(words: &[String]) -> bool
    ensures { IsTrue result ↔ Names words.now Run }
{
    command_of(words) == Some(Command::Run)
}

/// The command of a word and two numbers.
pub(crate) fn command_from(word: &str, numbers: Option<(&str, &str)>) -> Option<Command>
    ensures some { IfSome result (λ command. IsCommand command × (words_from word.now numbers.entry ≡ words_of command)) }
    ensures none { IfNone result ((command : Command) → IsCommand command → words_from word.now numbers.entry ≢ words_of command) }
{
    match numbers {
        None if word == "order" => Some(Command::Order),
        None if word == "line" => Some(Command::Line),
        None if word == "replay" => Some(Command::Replay),
        None if word == "run" => Some(Command::Run),
        None if word == "trace" => Some(Command::Trace),
        None if word == "audit" => Some(Command::Audit),
        Some((seed, count)) if word == "make" => made_of(seed, count),
        _ => None,
    }
}

/// `make` with its two numbers, each in decimal without sign or leading zeros.
fn made_of(seed: &str, count: &str) -> Option<Command>
    ensures some { IfSome result (λ command. IsCommand command × (codes "make" ∷ seed.now ∷ count.now ∷ [] ≡ words_of command)) }
    ensures none { IfNone result ((command : Command) → IsCommand command → codes "make" ∷ seed.now ∷ count.now ∷ [] ≢ words_of command) }
{
    let seed = parse_u64(seed.as_bytes())?;
    let count = parse_u32(count.as_bytes())?;
    if !is_in_range(seed, count) {
        return None;
    }
    Some(Command::Make { seed, count })
}

fn is_in_range(seed: u64, count: u32) -> bool
    ensures { IsTrue result ↔ AreInRange seed count }
{
    seed <= MAX_SEED && 1 <= count && count <= MAX_MADE
}
