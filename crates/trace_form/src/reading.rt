ghost use Rattle.std.specs.Prelude.{Ok, IfOk};
ghost use Rattle.trace_form.specs.declared.trace.Trace.{Trace};
ghost use Rattle.trace_form.specs.Fitting.{Traces};
ghost use Rattle.trace_form.specs.Form.{read_of, ReadsAs};

use crate::contents::read_whole;
use crate::fault::{Stop, TraceFault};
use crate::trace::Trace;
use std::alloc::Global;

/// Reads a trace from all of the bytes. Otherwise returns the place of the first faulty field, counted from 0. Time and
/// memory grow with the bytes.
pub fn read_trace(alloc: Global, bytes: &[u8]) -> Result<Trace, TraceFault>
    // What it returns, the place of the first faulty field included.
    ensures exact { ReadsAs result (read_of bytes.now) }
    // The bytes spell what is read, to the last byte.
    ensures found { IfOk result (λ trace. Traces trace bytes.now) }
    // If the bytes spell a trace, that trace is returned, or memory runs out.
    ensures only { (trace : Trace) → Traces trace bytes.now → ReadsAs result (Ok trace) }
{
    read_all(alloc, bytes)
}

#[tactic(auto, unfolding(crate::specs::Form::read_of))]
fn read_all(alloc: Global, bytes: &[u8]) -> Result<Trace, TraceFault>
    ensures { ReadsAs result (read_of bytes.now) }
{
    match read_whole(alloc, bytes) {
        Ok(contents) => match contents.into_trace(alloc) {
            Ok(trace) => Ok(trace),
            Err(_) => Err(TraceFault::NoMemory),
        },
        Err(Stop::Left(left)) => Err(TraceFault::BadTrace {
            at: bytes.len().saturating_sub(left) as u64,
        }),
        Err(Stop::NoMemory) => Err(TraceFault::NoMemory),
    }
}
