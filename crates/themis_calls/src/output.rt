ghost use Rattle.std.specs.Prelude.{◌≡◌, ◌≤◌, OnOk, OnErr};
ghost use Rattle.themis_calls.specs.Devices.{SinkFailed};
ghost use Rattle.themis_calls.specs.Moved.{Took, TookSome};

use crate::input::PIECE;
use seq_io::{Failed, Sink};

/// Writes a text in pieces. If the sink fails, it has a prefix of the text.
pub(crate) fn write_text<K: Sink>(sink: &mut K, text: &[u8]) -> Result<(), Failed>
    ensures whole { OnOk result (Took text.now (K.written sink.old) (K.written sink.new)) }
    ensures prefix { OnErr result (TookSome text.now (K.written sink.old) (K.written sink.new)) }
    ensures quiet { OnOk result (K.faults sink.new ≡ K.faults sink.old) }
    ensures later { K.faults sink.old ≤ K.faults sink.new }
    ensures cause { OnErr result (SinkFailed K.Sink sink.old sink.new) }
{
    let mut written = 0;
    while written < text.len() {
        let size = PIECE.min(text.len() - written);
        written += sink.write(&text[written..written + size])?;
    }
    Ok(())
}
