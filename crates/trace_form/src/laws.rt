//! Laws of writing and reading, for all bytes and all traces.
ghost use Rattle.std.specs.Prelude.{◌≡◌, ◌<◌, ℕ, List, Ok, All};
ghost use Rattle.run_record.specs.declared.record.RunRecord.{RunRecord};
ghost use Rattle.trace_form.specs.declared.opening.Span.{Span};
ghost use Rattle.trace_form.specs.declared.trace.Trace.{Trace};
ghost use Rattle.trace_form.specs.Contents.{contents_of, bared, span_of};
ghost use Rattle.trace_form.specs.Fitting.{Traces};
ghost use Rattle.trace_form.specs.Form.{read_of};
ghost use Rattle.trace_form.specs.Spelling.{contents_spelling};

/// Bytes that spell a trace read as that trace.
pub fn spellings_are_read()
    ensures { (trace : Trace) (bytes : List ℕ) → Traces trace bytes → read_of bytes ≡ Ok trace }
{}

/// Bytes that read as a trace spell it, to the last byte.
pub fn what_is_read_is_spelled()
    ensures { (bytes : List ℕ) (trace : Trace) → All (λ b. b < 256) bytes → read_of bytes ≡ Ok trace → Traces trace bytes }
{}

/// No bytes spell two traces.
pub fn no_bytes_spell_two_traces()
    ensures { (one other : Trace) (bytes : List ℕ) → Traces one bytes → Traces other bytes → one ≡ other }
{}

/// If the record made bare has a spelling, it is the bytes that are written of the record, and no others. These bytes
/// read as the record made bare.
pub fn what_is_written_is_read()
    ensures { (run : RunRecord) (span : Span) (bytes : List ℕ) → Traces (bared run span) bytes
        → (contents_spelling (contents_of run span) ≡ bytes) × (read_of (contents_spelling (contents_of run span)) ≡ Ok (bared run span)) }
{}

/// The record of a trace that bytes spell is bare: its trace is the same, and so are the bytes that are written of it.
pub fn what_is_read_is_bare()
    ensures { (trace : Trace) (bytes : List ℕ) → Traces trace bytes → bared trace.run (span_of trace.views trace.keys trace.height) ≡ trace }
{}
