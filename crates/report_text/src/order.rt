//! The text of one proposal.
ghost use Rattle.std.specs.Prelude.{◌≡◌, ◌++◌, IfOk, OnOk, string_bytes};
ghost use Rattle.std.specs.List.{flat_map};
ghost use Rattle.std.specs.List.Sorted.{IsStrictlySortedBy};
ghost use Rattle.seq_base.specs.Lists.{AreFresh, holds};
ghost use Rattle.seq_base.specs.Tx.{tx_cmp};
ghost use Rattle.tx_class.specs.Tally.{class_in, count_in};
ghost use Rattle.fair_laws.specs.Kept.{proposal_of};
ghost use Rattle.report_text.specs.OrderPrint.{IsOpen, class_line, end_text, open_line, proposal_text};

use crate::lines::{write_batches, write_counts};
use fair_finalize::{FinalFault, batches};
use fair_propose::propose_classified;
use majority_graph::Proposal;
use seq_base::{Bytes, NoMemory, Setting, Tx, TxList};
use std::alloc::{AllocError, Global};
use std::fmt::Write;
use tx_class::{Class, Classes, classify};

/// The text of one proposal: the counts of its setting, each listed transaction with its class, and the batches. If a
/// pair is missing, the least one stands instead of the batches and is returned with the text.
pub fn order_text(
    alloc: Global,
    setting: &Setting,
    lists: &[TxList],
) -> Result<(Bytes, Option<(Tx, Tx)>), NoMemory>
    requires { AreFresh lists.now }
    ensures text { IfOk result (λ answer. answer.0 ≡ proposal_text setting.now lists.now answer.1) }
    ensures undecided { IfOk result (λ answer. IsOpen (proposal_of setting.now lists.now) answer.1) }
{
    let classes = classify(alloc, setting, lists)?;
    let proposal = propose_classified(alloc, setting, &classes, lists)?;
    let mut text = String::new(alloc);
    write_counts(&mut text, setting)?;
    write_classes(&mut text, &classes, proposal.as_slice())?;
    let pair = write_end(alloc, &mut text, &proposal)?;
    Ok((Bytes::of(text.into_bytes()), pair))
}

/// A line for each listed transaction. `kept` is in ascending order.
pub(crate) fn write_classes(
    text: &mut String,
    classes: &Classes,
    kept: &[Tx],
) -> Result<(), AllocError>
    requires { IsStrictlySortedBy tx_cmp kept.now }
    ensures { OnOk result (string_bytes text.new ≡ string_bytes text.old
        ++ flat_map (λ t. class_line (class_in classes.now t) (holds t kept.now) t (count_in classes.now t)) classes.now.txs) }
{
    let listed = classes.as_slice();
    for tx in listed {
        let is_kept = holds_tx(kept, tx);
        write_tx(text, tx, classes.class(tx), is_kept, classes.count(tx))?;
    }
    Ok(())
}

fn write_tx(
    text: &mut String,
    tx: &Tx,
    class: Class,
    is_kept: bool,
    count: u32,
) -> Result<(), AllocError>
    ensures { OnOk result (string_bytes text.new ≡ string_bytes text.old ++ class_line class is_kept tx.now count) }
{
    match class {
        Class::Solid => writeln!(text, "tx {tx} solid {count} kept"),
        Class::Shaded if is_kept => writeln!(text, "tx {tx} shaded {count} kept"),
        Class::Shaded => writeln!(text, "tx {tx} shaded {count} cut"),
        Class::Blank => writeln!(text, "tx {tx} blank {count}"),
    }
}

/// Whether one of the transactions, which are in ascending order, is this one.
fn holds_tx(txs: &[Tx], tx: &Tx) -> bool
    requires { IsStrictlySortedBy tx_cmp txs.now }
    ensures { result ≡ holds tx.now txs.now }
{
    txs.binary_search(tx).is_ok()
}

/// Writes the batches. If a pair is missing, writes the line of the least one instead, and returns it.
fn write_end(
    alloc: Global,
    text: &mut String,
    proposal: &Proposal,
) -> Result<Option<(Tx, Tx)>, NoMemory>
    ensures text { IfOk result (λ pair. string_bytes text.new ≡ string_bytes text.old ++ end_text proposal.now pair) }
    ensures undecided { IfOk result (IsOpen proposal.now) }
{
    match batches(alloc, proposal) {
        Ok(batches) => {
            write_batches(text, &batches)?;
            Ok(None)
        }
        Err(FinalFault::Incomplete { u, v }) => {
            write_open(text, &u, &v)?;
            Ok(Some((u, v)))
        }
        Err(FinalFault::NoMemory) => Err(NoMemory),
    }
}

pub(crate) fn write_open(text: &mut String, u: &Tx, v: &Tx) -> Result<(), AllocError>
    ensures { OnOk result (string_bytes text.new ≡ string_bytes text.old ++ open_line u.now v.now) }
{
    writeln!(text, "open {u} {v}")
}
