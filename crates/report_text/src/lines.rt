//! The lines that several texts share.
ghost use Rattle.std.specs.Prelude.{◌≡◌, ◌++◌, OnOk, string_bytes};
ghost use Rattle.report_text.specs.Lines.{counts_line};
ghost use Rattle.report_text.specs.OrderPrint.{batch_line, batch_lines, after_spaces};

use seq_base::{BatchList, Setting, Tx};
use std::alloc::AllocError;
use std::fmt::Write;

/// How many lists decide a pair, make a transaction solid, and make a proposal.
pub(crate) fn write_counts(text: &mut String, setting: &Setting) -> Result<(), AllocError>
    ensures { OnOk result (string_bytes text.new ≡ string_bytes text.old ++ counts_line setting.now) }
{
    let threshold = setting.threshold();
    let solid = setting.solid_at();
    let quorum = setting.quorum();
    writeln!(text, "threshold={threshold} solid={solid} quorum={quorum}")
}

/// A line for each batch, numbered from 1.
pub(crate) fn write_batches(text: &mut String, batches: &BatchList) -> Result<(), AllocError>
    ensures { OnOk result (string_bytes text.new ≡ string_bytes text.old ++ batch_lines 1 batches.now) }
{
    let batches = batches.as_slice();
    for (at, batch) in batches.iter().enumerate() {
        write_batch(text, at + 1, batch.as_slice())?;
    }
    Ok(())
}

pub(crate) fn write_batch(text: &mut String, number: usize, batch: &[Tx]) -> Result<(), AllocError>
    ensures { OnOk result (string_bytes text.new ≡ string_bytes text.old ++ batch_line number batch.now) }
{
    write!(text, "batch {number}")?;
    write_after_spaces(text, batch)?;
    text.push_str("\n")
}

/// Transactions on a line, each after one space.
pub(crate) fn write_after_spaces(text: &mut String, txs: &[Tx]) -> Result<(), AllocError>
    ensures { OnOk result (string_bytes text.new ≡ string_bytes text.old ++ after_spaces txs.now) }
{
    for tx in txs {
        write!(text, " {tx}")?;
    }
    Ok(())
}
