ghost use Rattle.std.specs.Prelude.{◌≡◌, ◌∷◌, Ok, IfOk};
ghost use Rattle.seq_base.specs.declared.message.Message.{Message};
ghost use Rattle.seq_base.specs.Spelling.{message_spelling};
ghost use Rattle.seq_base.specs.Writable.{IsWritable};
ghost use Rattle.wire_view.specs.Reading.{Gives};
ghost use Rattle.wire_view.specs.Messages.{after_kind, message_at, read_of, message_of, view_of};

use crate::WireFault;
use crate::block::read_block;
use crate::fields::{read_digest, read_tag};
use crate::messages::{MessageView, read_call, read_proposal, read_vote};
use crate::order::read_sealed;
use seq_base::kinds::{ASK, FETCH, GIVE, NEW_VIEW, ORDER, PROPOSE, VERSION, VOTE};

/// Reads a message in place. The message is all of the bytes, in the wire form of version 2. Takes no memory.
pub fn read(bytes: &[u8]) -> Result<MessageView<'_>, WireFault>
    // The result, with the first fault.
    ensures exact { result ≡ read_of bytes.now }
    // The bytes are exactly the spelling of the message that was read.
    ensures found { IfOk result (λ view. IsWritable (message_of view) × (bytes.now ≡ message_spelling (message_of view))) }
    // The spelling of a writable message is read as that message.
    ensures only { (m : Message) → IsWritable m → bytes.now ≡ message_spelling m → result ≡ Ok (view_of m) }
{
    read_whole(bytes)
}

#[tactic(auto, unfolding(crate::specs::Messages::read_of))]
fn read_whole(bytes: &[u8]) -> Result<MessageView<'_>, WireFault>
    ensures { result ≡ read_of bytes.now }
{
    let (message, rest) = read_message(bytes)?;
    if !rest.is_empty() {
        return Err(WireFault::Trailing);
    }
    Ok(message)
}

#[tactic(auto, unfolding(crate::specs::Messages::message_at))]
fn read_message(bytes: &[u8]) -> Result<(MessageView<'_>, &[u8]), WireFault>
    ensures { Gives (λ x. (x.0, x.1.now)) result (message_at bytes.now) }
{
    let (version, statement) = read_tag(bytes)?;
    if version != VERSION {
        return Err(WireFault::Version);
    }
    let (kind, rest) = read_tag(statement)?;
    read_after_kind(kind, statement, rest)
}

/// Reads what follows the kind of a message. The statement is the kind and the rest.
#[tactic(auto, unfolding(crate::specs::Messages::after_kind))]
fn read_after_kind<'a>(
    kind: u8,
    statement: &'a [u8],
    rest: &'a [u8],
) -> Result<(MessageView<'a>, &'a [u8]), WireFault>
    requires { statement.now ≡ kind ∷ rest.now }
    ensures { Gives (λ x. (x.0, x.1.now)) result (after_kind kind rest.now) }
{
    match kind {
        NEW_VIEW => {
            let (call, rest) = read_call(NEW_VIEW, statement, rest)?;
            Ok((MessageView::NewView(call), rest))
        }
        ASK => {
            let (call, rest) = read_call(ASK, statement, rest)?;
            Ok((MessageView::Ask(call), rest))
        }
        ORDER => {
            let (order, rest) = read_sealed(0, false, statement, rest)?;
            Ok((MessageView::Order(order), rest))
        }
        PROPOSE => {
            let (proposal, rest) = read_proposal(statement, rest)?;
            Ok((MessageView::Propose(proposal), rest))
        }
        VOTE => {
            let (vote, rest) = read_vote(statement, rest)?;
            Ok((MessageView::Vote(vote), rest))
        }
        FETCH => {
            let (block, rest) = read_digest(rest)?;
            Ok((MessageView::Fetch(block), rest))
        }
        GIVE => {
            let (block, rest) = read_block(rest)?;
            Ok((MessageView::Give(block), rest))
        }
        _ => Err(WireFault::Kind),
    }
}
