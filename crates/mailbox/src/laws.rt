//! What an empty mailbox implies for one who also holds a sender's pass. Each law is the contract of a function with
//! an empty body.
ghost use Rattle.std.specs.Prelude.{◌≡◌, ◌≢◌, List, ℕ, []};
ghost use Rattle.std.specs.List.{Contains};
ghost use mathlib.Core.List.{IsPrefix};
ghost use Rattle.mailbox.specs.Boxes.{of, news, Opened, Sender, Receiver, sender_in, receiver_in, sent_more, heard_more};
ghost use Rattle.mailbox.specs.Mail.{WasEmpty};

/// All that the receiver had been informed of before it found the mailbox empty was received.
pub fn what_was_heard_was_taken()
    ensures { (p : Receiver) (from : ℕ) (sent : List (List ℕ)) → WasEmpty p → Contains p.heard (news from sent) → IsPrefix sent (of from p.taken) }
{}

/// So where a sender has sent nothing since, what was received from it is all that it sent.
pub fn an_empty_mailbox_keeps_nothing_back()
    ensures { (p : Receiver) (s : Sender) → WasEmpty p → Contains p.heard (news s.from s.sent) → IsPrefix (of s.from p.taken) s.sent
        → of s.from p.taken ≡ s.sent }
{}

/// A mailbox is not reported empty while it holds a message that the receiver was informed of: one message is enough.
pub fn a_mailbox_with_a_message_is_not_empty()
    ensures left { (p : Receiver) (s : Sender) → IsPrefix (of s.from p.taken) s.sent → of s.from p.taken ≢ s.sent → WasEmpty (heard_more p s) → ⊥ }
    ensures message { (box : Opened) (bytes : List ℕ) → WasEmpty (heard_more (receiver_in box []) (sent_more (sender_in box.name 0) bytes)) → ⊥ }
{}
