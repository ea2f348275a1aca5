//! Laws of writing and reading, for all bytes and all messages.
ghost use Rattle.std.specs.Prelude.{◌≡◌, ◌<◌, List, ℕ, Ok, All};
ghost use Rattle.seq_base.specs.declared.message.Message.{Message};
ghost use Rattle.seq_base.specs.Spelling.{message_spelling};
ghost use Rattle.seq_base.specs.Writable.{IsWritable};
ghost use Rattle.wire_view.specs.declared.messages.MessageView.{MessageView};
ghost use Rattle.wire_view.specs.Messages.{message_of, read_of, view_of};

/// The spelling of a writable message reads as that message.
pub fn spellings_are_read()
    ensures { (m : Message) → IsWritable m → read_of (message_spelling m) ≡ Ok (view_of m) }
{}

/// Bytes that read as a message are exactly its spelling, and the message is writable.
pub fn what_is_read_is_spelled()
    ensures { (bytes : List ℕ) (view : MessageView) → All (λ b. b < 256) bytes → read_of bytes ≡ Ok view
        → IsWritable (message_of view) × (bytes ≡ message_spelling (message_of view)) × (view ≡ view_of (message_of view)) }
{}

/// No bytes spell two writable messages.
pub fn no_bytes_spell_two_messages()
    ensures { (m n : Message) → IsWritable m → IsWritable n → message_spelling m ≡ message_spelling n → m ≡ n }
{}
