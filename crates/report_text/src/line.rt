//! The text of one proposal, with a line for each batch.
ghost use Rattle.std.specs.Prelude.{◌≡◌, ◌++◌, List, All, true, IfOk, OnOk, string_bytes};
ghost use Rattle.std.specs.List.Sorted.{IsStrictlySortedBy};
ghost use Rattle.seq_base.specs.declared.tx.Tx.{Tx};
ghost use Rattle.seq_base.specs.Lists.{AreFresh, holds};
ghost use Rattle.seq_base.specs.Setting.{Parameters};
ghost use Rattle.seq_base.specs.Tx.{tx_cmp};
ghost use Rattle.majority_graph.specs.Graph.{IsComplete, graph_of};
ghost use Rattle.batch_laws.specs.Batches.{AreBatches};
ghost use Rattle.batch_laws.specs.Reached.{batches_of};
ghost use Rattle.fair_laws.specs.Kept.{proposal_of};
ghost use Rattle.report_text.specs.LinePrint.{line_line, lined_batch, lined_batches, lined_end, lined_text};
ghost use Rattle.report_text.specs.OrderPrint.{IsOpen};

use crate::lines::{write_after_spaces, write_batch, write_counts};
use crate::order::{write_classes, write_open};
use fair_finalize::{FinalFault, batches};
use fair_propose::propose_classified;
use line_up::line_of_batch;
use majority_graph::Proposal;
use seq_base::{BatchList, Bytes, NoMemory, Setting, Tx, TxList};
use std::alloc::{AllocError, Global};
use std::fmt::Write;
use tx_class::classify;

/// The text of one proposal as `order_text` gives it. Each batch is followed by a line: the transactions of the batch,
/// ordered so that each has a majority over the next.
pub fn line_text(
    alloc: Global,
    setting: &Setting,
    lists: &[TxList],
) -> Result<(Bytes, Option<(Tx, Tx)>), NoMemory>
    requires { AreFresh lists.now }
    ensures text { IfOk result (λ answer. answer.0 ≡ lined_text setting.now lists.now answer.1) }
    ensures undecided { IfOk result (λ answer. IsOpen (proposal_of setting.now lists.now) answer.1) }
{
    let classes = classify(alloc, setting, lists)?;
    let proposal = propose_classified(alloc, setting, &classes, lists)?;
    let mut text = String::new(alloc);
    write_counts(&mut text, setting)?;
    write_classes(&mut text, &classes, proposal.as_slice())?;
    let pair = write_lined_end(alloc, &mut text, &proposal)?;
    Ok((Bytes::of(text.into_bytes()), pair))
}

/// Writes the batches with their lines. If a pair is missing, writes the line of the least one instead, and returns it.
fn write_lined_end(
    alloc: Global,
    text: &mut String,
    proposal: &Proposal,
) -> Result<Option<(Tx, Tx)>, NoMemory>
    ensures text { IfOk result (λ pair. (s : Parameters) (lists : List (List Tx)) → proposal.now ≡ graph_of s lists proposal.now.vertices
        → string_bytes text.new ≡ string_bytes text.old ++ lined_end s lists (batches_of proposal.now) pair) }
    ensures undecided { IfOk result (IsOpen proposal.now) }
{
    match batches(alloc, proposal) {
        Ok(batches) => {
            write_lined_batches(alloc, text, proposal, &batches)?;
            Ok(None)
        }
        Err(FinalFault::Incomplete { u, v }) => {
            write_open(text, &u, &v)?;
            Ok(Some((u, v)))
        }
        Err(FinalFault::NoMemory) => Err(NoMemory),
    }
}

/// Each batch, numbered from 1, and its line.
fn write_lined_batches(
    alloc: Global,
    text: &mut String,
    proposal: &Proposal,
    batches: &BatchList,
) -> Result<(), NoMemory>
    requires complete { IsComplete proposal.now }
    requires batches { AreBatches proposal.now batches.now }
    ensures { OnOk result ((s : Parameters) (lists : List (List Tx)) → proposal.now ≡ graph_of s lists proposal.now.vertices
        → string_bytes text.new ≡ string_bytes text.old ++ lined_batches s lists 1 batches.now) }
{
    let batches = batches.as_slice();
    for (at, batch) in batches.iter().enumerate() {
        write_lined_batch(alloc, text, proposal, at + 1, batch.as_slice())?;
    }
    Ok(())
}

fn write_lined_batch(
    alloc: Global,
    text: &mut String,
    proposal: &Proposal,
    number: usize,
    batch: &[Tx],
) -> Result<(), NoMemory>
    requires complete { IsComplete proposal.now }
    requires ascending { IsStrictlySortedBy tx_cmp batch.now }
    requires vertices { All (λ t. holds t proposal.now.vertices ≡ true) batch.now }
    ensures { OnOk result ((s : Parameters) (lists : List (List Tx)) → proposal.now ≡ graph_of s lists proposal.now.vertices
        → string_bytes text.new ≡ string_bytes text.old ++ lined_batch s lists number batch.now) }
{
    write_batch(text, number, batch)?;
    let line = line_of_batch(alloc, proposal, batch)?;
    write_line(text, number, &line)?;
    Ok(())
}

fn write_line(text: &mut String, number: usize, line: &[Tx]) -> Result<(), AllocError>
    ensures { OnOk result (string_bytes text.new ≡ string_bytes text.old ++ line_line number line.now) }
{
    write!(text, "line {number}")?;
    write_after_spaces(text, line)?;
    text.push_str("\n")
}
