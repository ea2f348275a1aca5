ghost use Rattle.std.specs.Prelude.{◌≡◌, ◌≢◌, ℕ, List, ◌↔◌, None, Ok, IfSome};
ghost use Rattle.plan_text.specs.declared.order.OrderText.{OrderText};
ghost use Rattle.plan_text.specs.OrderReading.{read_orders};
ghost use Rattle.themis_calls.specs.declared.command.Command.{Command};
ghost use Rattle.themis_calls.specs.declared.command.Command.TheVariants.{Run};
ghost use Rattle.themis_calls.specs.declared.outcome.Status.TheVariants.{BadWords};
ghost use Rattle.themis_calls.specs.Answers.{AnswersOf, OrdersText};
ghost use Rattle.themis_calls.specs.Commands.{AreWords, Names, order_rules, plan_rules, rules_of, trace_rules};
ghost use Rattle.themis_calls.specs.Devices.{EndsBy, SinkFailed, SourceFailed, UsesSink, UsesSource};
ghost use Rattle.themis_calls.specs.Headline.{HoldsOf, IsGiven, KeepsOrder};
ghost use Rattle.themis_calls.specs.Audited.{AuditsTrace, KeepsAudit};
ghost use Rattle.themis_calls.specs.Ordered.{AreLines, IsFair};
ghost use Rattle.themis_calls.specs.Played.{PlaysPlan};
ghost use Rattle.themis_calls.specs.Replayed.{ByTurns, InRounds, seals_of};

use crate::auditing::{MAX_TRACE, audit};
use crate::command::{Command, asks_to_run, command_of};
use crate::input::{MAX_INPUT, read_whole};
use crate::making::make;
use crate::ordering::{Form, lines_have_majorities, order, orders_are_fair};
use crate::parsing::taken_apart;
use crate::replaying::replay;
use crate::reported::RunForm;
use crate::running::run;
use crate::{Outcome, Status};
use seal_kit::CheckerMaker;
use seq_io::{Sink, Source};
use std::alloc::Global;
use std::sync::Wait;
use std::thread::Threads;

/// Runs one command: it checks the arguments, reads the source to its end, makes the text, and writes it to the sink.
/// The maker grows the keys of a run. With the one argument `run` it starts threads and may wait for them. All other
/// arguments go to [`themis_alone`].
pub fn themis<R: Threads + Wait + Sync, S: Source, K: Sink, M: CheckerMaker>(
    rt: &R,
    alloc: Global,
    words: &[String],
    source: &mut S,
    sink: &mut K,
    maker: &M,
) -> Outcome
    // Arguments: exactly if they name no command, the status is BadWords and nothing is read.
    ensures words { (result.status ≡ BadWords) ↔ (¬ AreWords words.now) }
    ensures unread { result.status ≡ BadWords → (result.used ≡ 0) × (source.new ≡ source.old) × (result.run ≡ None) }

    // Command: how it may end, whether it reads, the limit of its input, and whether it gives a run.
    ensures command { (command : Command) → Names words.now command
        → EndsBy (rules_of command) source.old source.new (S.left source.new) result.run result.used result.status }

    // Answer: which text is written or which fault is returned, which run is given, and which status is expected if no
    // count of faults rises. For each run that is given, whatever the source reports: whose run it is, what is written
    // of it, and the headline.
    ensures answers { (command : Command) → Names words.now command → AnswersOf command (seals_of M.SealMaker M.keys_fit maker.now)
        (SourceFailed S.Source source.old source.new) (SinkFailed K.Sink sink.old sink.new)
        (S.left source.old) result.run (K.written sink.old) (K.written sink.new) result.status }
    ensures headline { IfSome result.run (λ run. IsGiven words.now (seals_of M.SealMaker M.keys_fit maker.now)
        (S.left source.old) (K.written sink.old) (K.written sink.new) result.status run) }

    // Source and sink: what was taken, what was written, and that a fault is returned exactly if there was one.
    ensures source { UsesSource result.used (S.left source.old) (S.left source.new) (S.faults source.old) (S.faults source.new) result.status }
    ensures sink { UsesSink sink.old sink.new (K.faults sink.old) (K.faults sink.new) result.status }

    // For every order text: its order is fair, and in each line each transaction has a majority over the next.
    ensures fair { (bytes : List ℕ) (orders : OrderText) → read_orders bytes ≡ Ok orders → IsFair orders }
    ensures lines { (bytes : List ℕ) (orders : OrderText) → read_orders bytes ≡ Ok orders → AreLines orders }
{
    if !asks_to_run(words) {
        return themis_alone(alloc, words, source, sink, maker);
    }
    orders_are_fair();
    lines_have_majorities();
    if taken_apart(alloc, words).is_err() {
        return unread(Status::NoMemory);
    }
    over_plan_in_rounds(rt, alloc, source, sink, maker)
}

/// The same for all arguments but the one argument `run`. It starts no thread and waits for nobody. It is proved to
/// return.
pub fn themis_alone<S: Source, K: Sink, M: CheckerMaker>(
    alloc: Global,
    words: &[String],
    source: &mut S,
    sink: &mut K,
    maker: &M,
) -> Outcome
    requires { ¬ Names words.now Run }
    // Arguments: exactly if they name no command, the status is BadWords and nothing is read.
    ensures words { (result.status ≡ BadWords) ↔ (¬ AreWords words.now) }
    ensures unread { result.status ≡ BadWords → (result.used ≡ 0) × (source.new ≡ source.old) × (result.run ≡ None) }

    // Command: how it may end, whether it reads, the limit of its input, and whether it gives a run.
    ensures command { (command : Command) → Names words.now command
        → EndsBy (rules_of command) source.old source.new (S.left source.new) result.run result.used result.status }

    // Answer: which text is written or which fault is returned, which run is given, and which status is expected if no
    // count of faults rises. For each run that is given, whatever the source reports: whose run it is, what is written
    // of it, and the headline.
    ensures answers { (command : Command) → Names words.now command → AnswersOf command (seals_of M.SealMaker M.keys_fit maker.now)
        (SourceFailed S.Source source.old source.new) (SinkFailed K.Sink sink.old sink.new)
        (S.left source.old) result.run (K.written sink.old) (K.written sink.new) result.status }
    ensures headline { IfSome result.run (λ run. IsGiven words.now (seals_of M.SealMaker M.keys_fit maker.now)
        (S.left source.old) (K.written sink.old) (K.written sink.new) result.status run) }

    // Source and sink: what was taken, what was written, and that a fault is returned exactly if there was one.
    ensures source { UsesSource result.used (S.left source.old) (S.left source.new) (S.faults source.old) (S.faults source.new) result.status }
    ensures sink { UsesSink sink.old sink.new (K.faults sink.old) (K.faults sink.new) result.status }

    // For every order text: its order is fair, and in each line each transaction has a majority over the next.
    ensures fair { (bytes : List ℕ) (orders : OrderText) → read_orders bytes ≡ Ok orders → IsFair orders }
    ensures lines { (bytes : List ℕ) (orders : OrderText) → read_orders bytes ≡ Ok orders → AreLines orders }
{
    orders_are_fair();
    lines_have_majorities();
    if command_of(words).is_none() {
        return unread(Status::BadWords);
    }
    let Ok(command) = taken_apart(alloc, words) else {
        return unread(Status::NoMemory);
    };
    obey(alloc, command, source, sink, maker)
}

/// Nothing was read.
fn unread(status: Status) -> Outcome
    ensures { result ≡ record { status = status; run = None; used = 0 } }
{
    Outcome {
        status,
        run: None,
        used: 0,
    }
}

/// One command that waits for nobody.
fn obey<S: Source, K: Sink, M: CheckerMaker>(
    alloc: Global,
    command: Command,
    source: &mut S,
    sink: &mut K,
    maker: &M,
) -> Outcome
    requires { command ≢ Run }
    ensures command { EndsBy (rules_of command) source.old source.new (S.left source.new) result.run result.used result.status }
    ensures source { UsesSource result.used (S.left source.old) (S.left source.new) (S.faults source.old) (S.faults source.new) result.status }
    ensures sink { UsesSink sink.old sink.new (K.faults sink.old) (K.faults sink.new) result.status }
    ensures answers { AnswersOf command (seals_of M.SealMaker M.keys_fit maker.now)
        (SourceFailed S.Source source.old source.new) (SinkFailed K.Sink sink.old sink.new)
        (S.left source.old) result.run (K.written sink.old) (K.written sink.new) result.status }
    ensures headline { IfSome result.run
        (HoldsOf command (seals_of M.SealMaker M.keys_fit maker.now) (S.left source.old) (K.written sink.old) (K.written sink.new) result.status) }
{
    match command {
        Command::Order => over_order_text(alloc, Form::Batches, source, sink),
        Command::Line => over_order_text(alloc, Form::Lines, source, sink),
        Command::Replay => over_plan(alloc, RunForm::Report, source, sink, maker),
        Command::Run => unreachable!(),
        Command::Trace => over_plan(alloc, RunForm::Record, source, sink, maker),
        Command::Audit => over_trace(alloc, source, sink, maker),
        Command::Make { seed, count } => unread(make(alloc, seed, count, sink)),
    }
}

fn over_order_text<S: Source, K: Sink>(
    alloc: Global,
    form: Form,
    source: &mut S,
    sink: &mut K,
) -> Outcome
    ensures command { EndsBy order_rules source.old source.new (S.left source.new) result.run result.used result.status }
    ensures source { UsesSource result.used (S.left source.old) (S.left source.new) (S.faults source.old) (S.faults source.new) result.status }
    ensures sink { UsesSink sink.old sink.new (K.faults sink.old) (K.faults sink.new) result.status }
    ensures answers { IfSome (S.left source.old) (λ bytes. OrdersText form (SourceFailed S.Source source.old source.new) (SinkFailed K.Sink sink.old sink.new)
        bytes (K.written sink.old) (K.written sink.new) result.status) }
    ensures no_run { result.run ≡ None }
{
    let mut input = Vec::new(alloc);
    let status = match read_whole(source, &mut input, MAX_INPUT) {
        Err(status) => status,
        Ok(()) => order(alloc, form, &input, sink),
    };
    Outcome {
        status,
        run: None,
        used: input.len() as u64,
    }
}

fn over_plan<S: Source, K: Sink, M: CheckerMaker>(
    alloc: Global,
    form: RunForm,
    source: &mut S,
    sink: &mut K,
    maker: &M,
) -> Outcome
    ensures command { EndsBy plan_rules source.old source.new (S.left source.new) result.run result.used result.status }
    ensures source { UsesSource result.used (S.left source.old) (S.left source.new) (S.faults source.old) (S.faults source.new) result.status }
    ensures sink { UsesSink sink.old sink.new (K.faults sink.old) (K.faults sink.new) result.status }
    ensures answers { IfSome (S.left source.old) (λ bytes. PlaysPlan (ByTurns form) (seals_of M.SealMaker M.keys_fit maker.now)
        (SourceFailed S.Source source.old source.new) (SinkFailed K.Sink sink.old sink.new)
        bytes result.run (K.written sink.old) (K.written sink.new) result.status) }
    ensures headline { IfSome result.run (KeepsOrder (ByTurns form) (seals_of M.SealMaker M.keys_fit maker.now)
        (S.left source.old) (K.written sink.old) (K.written sink.new) result.status) }
{
    let mut input = Vec::new(alloc);
    let (status, run) = match read_whole(source, &mut input, MAX_INPUT) {
        Err(status) => (status, None),
        Ok(()) => replay(alloc, form, &input, sink, maker),
    };
    Outcome {
        status,
        run,
        used: input.len() as u64,
    }
}

fn over_plan_in_rounds<R: Threads + Wait + Sync, S: Source, K: Sink, M: CheckerMaker>(
    rt: &R,
    alloc: Global,
    source: &mut S,
    sink: &mut K,
    maker: &M,
) -> Outcome
    ensures command { EndsBy plan_rules source.old source.new (S.left source.new) result.run result.used result.status }
    ensures source { UsesSource result.used (S.left source.old) (S.left source.new) (S.faults source.old) (S.faults source.new) result.status }
    ensures sink { UsesSink sink.old sink.new (K.faults sink.old) (K.faults sink.new) result.status }
    ensures answers { IfSome (S.left source.old) (λ bytes. PlaysPlan InRounds (seals_of M.SealMaker M.keys_fit maker.now)
        (SourceFailed S.Source source.old source.new) (SinkFailed K.Sink sink.old sink.new)
        bytes result.run (K.written sink.old) (K.written sink.new) result.status) }
    ensures headline { IfSome result.run (KeepsOrder InRounds (seals_of M.SealMaker M.keys_fit maker.now)
        (S.left source.old) (K.written sink.old) (K.written sink.new) result.status) }
{
    let mut input = Vec::new(alloc);
    let (status, run) = match read_whole(source, &mut input, MAX_INPUT) {
        Err(status) => (status, None),
        Ok(()) => run(rt, alloc, &input, sink, maker),
    };
    Outcome {
        status,
        run,
        used: input.len() as u64,
    }
}

fn over_trace<S: Source, K: Sink, M: CheckerMaker>(
    alloc: Global,
    source: &mut S,
    sink: &mut K,
    maker: &M,
) -> Outcome
    ensures command { EndsBy trace_rules source.old source.new (S.left source.new) result.run result.used result.status }
    ensures source { UsesSource result.used (S.left source.old) (S.left source.new) (S.faults source.old) (S.faults source.new) result.status }
    ensures sink { UsesSink sink.old sink.new (K.faults sink.old) (K.faults sink.new) result.status }
    ensures answers { IfSome (S.left source.old) (λ bytes. AuditsTrace (seals_of M.SealMaker M.keys_fit maker.now)
        (SourceFailed S.Source source.old source.new) (SinkFailed K.Sink sink.old sink.new)
        bytes result.run (K.written sink.old) (K.written sink.new) result.status) }
    ensures headline { IfSome result.run (KeepsAudit (seals_of M.SealMaker M.keys_fit maker.now)
        (S.left source.old) (K.written sink.old) (K.written sink.new) result.status) }
{
    let mut input = Vec::new(alloc);
    let (status, run) = match read_whole(source, &mut input, MAX_TRACE) {
        Err(status) => (status, None),
        Ok(()) => audit(alloc, &input, sink, maker),
    };
    Outcome {
        status,
        run,
        used: input.len() as u64,
    }
}
