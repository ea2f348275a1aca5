ghost use Rattle.std.specs.Prelude.{◌≡◌, ◌<◌, ◌≤◌, false, true};
ghost use Rattle.themis_calls.specs.declared.outcome.Status.TheVariants.{WriteFault};
ghost use Rattle.themis_calls.specs.Devices.{SinkFailed};
ghost use Rattle.themis_calls.specs.Statuses.{ends_make, has_written};
ghost use Rattle.themis_calls.specs.Made.{AnswersMade};

use crate::Status;
use crate::output::write_text;
use plan_maker::make_plan;
use seq_io::Sink;
use std::alloc::Global;

/// The command `make`: a plan for `replay`.
pub(crate) fn make<K: Sink>(alloc: Global, seed: u64, count: u32, sink: &mut K) -> Status
    ensures answers { AnswersMade seed count (K.written sink.old) (K.written sink.new) result }
    ensures ends { ends_make result ≡ true }
    ensures silent { has_written result ≡ false → sink.new ≡ sink.old }
    ensures write_fault { result ≡ WriteFault → SinkFailed K.Sink sink.old sink.new }
    ensures rose { K.faults sink.old < K.faults sink.new → result ≡ WriteFault }
    ensures sink_later { K.faults sink.old ≤ K.faults sink.new }
{
    match make_plan(alloc, seed, count) {
        Err(_) => Status::NoMemory,
        Ok(text) => match write_text(sink, text.as_slice()) {
            Err(_) => Status::WriteFault,
            Ok(()) => Status::Done,
        },
    }
}
