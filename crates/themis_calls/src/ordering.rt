//! The commands `order` and `line`.
ghost use Rattle.std.specs.Prelude.{◌≡◌, ◌≢◌, ◌≤◌, ◌<◌, Ok, IfOk, IfErr, ℕ, List, false, true};
ghost use Rattle.seq_base.specs.Lists.{AreFresh};
ghost use Rattle.fair_laws.specs.Kept.{proposal_of};
ghost use Rattle.plan_text.specs.declared.order.OrderText.{OrderText};
ghost use Rattle.plan_text.specs.Reads.{Blames};
ghost use Rattle.plan_text.specs.OrderReading.{read_orders};
ghost use Rattle.report_text.specs.OrderPrint.{IsOpen};
ghost use Rattle.themis_calls.specs.declared.outcome.Status.{Status};
ghost use Rattle.themis_calls.specs.declared.outcome.Status.TheVariants.{WriteFault, NoMemory as WantOfMemory};
ghost use Rattle.themis_calls.specs.Devices.{SinkFailed};
ghost use Rattle.themis_calls.specs.Statuses.{ends_order, has_written, is_unread};
ghost use Rattle.themis_calls.specs.Ordered.{AnswersOrder, AreLines, IsDue, IsFair, IsPrinted, ended_as, refused_as, text_in};

use crate::Status;
use crate::output::write_text;
use batch_laws::computed_lists_are_batches;
use fair_laws::{computed_lists_are_kept, fair_one, fair_one_in_batches};
use line_up::{lines_of_batches_have_majorities, neighbours_have_majorities};
use plan_text::{PlanError, order_texts_are_read_as_spelled, read_order_text};
use report_text::{line_text, order_text};
use seq_base::{Bytes, NoMemory, Setting, Tx, TxList};
use seq_io::Sink;
use std::alloc::Global;

/// How a proposal is printed.
#[derive(Clone, Copy)]
pub(crate) enum Form {
    /// With its batches.
    Batches,
    /// With its batches, each followed by a line.
    Lines,
}

/// The commands `order` and `line`: the proposal of the order text and its batches, in the given form.
pub(crate) fn order<K: Sink>(alloc: Global, form: Form, input: &[u8], sink: &mut K) -> Status
    // What is written of each input.
    ensures answers { AnswersOrder form input.now (K.written sink.old) (K.written sink.new) result }
    // The status is one of the command's own, and one without reading only where memory ran out.
    ensures ends { ends_order result ≡ true }
    ensures read { is_unread result ≡ true → result ≡ WantOfMemory }
    // A call that writes nothing leaves the sink, and a write fault is returned exactly where a count of faults rises.
    ensures silent { has_written result ≡ false → sink.new ≡ sink.old }
    ensures write_fault { result ≡ WriteFault → SinkFailed K.Sink sink.old sink.new }
    ensures rose { K.faults sink.old < K.faults sink.new → result ≡ WriteFault }
    ensures sink_later { K.faults sink.old ≤ K.faults sink.new }
{
    match answer(alloc, form, input) {
        Ok((text, pair)) => match write_text(sink, text.as_slice()) {
            Err(_) => Status::WriteFault,
            Ok(()) => ended(pair),
        },
        Err(error) => refused(error),
    }
}

/// The printed text of the input, and the open pair.
fn answer(alloc: Global, form: Form, input: &[u8]) -> Result<(Bytes, Option<(Tx, Tx)>), PlanError>
    ensures ok { IfOk result (λ answer. IsPrinted form input.now answer.1 answer.0) }
    ensures err { IfErr result (λ error. Blames error (read_orders input.now)) }
{
    let text = read_order_text(alloc, input)?;
    match print(alloc, form, &text.setting, text.lists.as_slice()) {
        Ok(answer) => Ok(answer),
        Err(_) => Err(PlanError::NoMemory),
    }
}

/// The text of a proposal in the given form, and the open pair.
fn print(
    alloc: Global,
    form: Form,
    setting: &Setting,
    lists: &[TxList],
) -> Result<(Bytes, Option<(Tx, Tx)>), NoMemory>
    requires { AreFresh lists.now }
    ensures text { IfOk result (λ answer. answer.0 ≡ text_in form setting.now lists.now answer.1) }
    ensures undecided { IfOk result (λ answer. IsOpen (proposal_of setting.now lists.now) answer.1) }
{
    match form {
        Form::Batches => order_text(alloc, setting, lists),
        Form::Lines => line_text(alloc, setting, lists),
    }
}

/// The status of an input that gives no text.
fn refused(error: PlanError) -> Status
    ensures value { result ≡ refused_as error }
    ensures ends { ends_order result ≡ true }
    ensures read { is_unread result ≡ true → result ≡ WantOfMemory }
    ensures silent { has_written result ≡ false }
    ensures taken { result ≢ WriteFault }
{
    match error {
        PlanError::Fault(fault) => Status::BadPlan(fault),
        PlanError::NoMemory => Status::NoMemory,
    }
}

/// The status by the open pair, once the text is written.
fn ended(pair: Option<(Tx, Tx)>) -> Status
    ensures value { result ≡ ended_as pair }
    ensures ends { ends_order result ≡ true }
    ensures read { is_unread result ≡ false }
    ensures written { has_written result ≡ true }
    ensures taken { result ≢ WriteFault }
{
    match pair {
        Some((u, v)) => Status::Open(u, v),
        None => Status::Done,
    }
}

/// The order of every order text is fair: the laws of `fair_laws` over its setting and lists.
pub(crate) fn orders_are_fair()
    ensures { (bytes : List ℕ) (orders : OrderText) → read_orders bytes ≡ Ok orders → IsFair orders }
{
    order_texts_are_read_as_spelled();
    computed_lists_are_kept();
    computed_lists_are_batches();
    fair_one();
    fair_one_in_batches();
}

/// Each line contains exactly the transactions of its batch, and each has a majority over the next, if the proposal is
/// complete: the laws of `line_up` over the setting and lists of every order text.
pub(crate) fn lines_have_majorities()
    ensures { (bytes : List ℕ) (orders : OrderText) → read_orders bytes ≡ Ok orders → AreLines orders }
{
    order_texts_are_read_as_spelled();
    computed_lists_are_kept();
    computed_lists_are_batches();
    neighbours_have_majorities();
    lines_of_batches_have_majorities();
}

/// An input has one expected status.
fn one_status_is_due()
    ensures { (bytes : List ℕ) (one other : Status) → IsDue bytes one → IsDue bytes other → one ≡ other }
{}
