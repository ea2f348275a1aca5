ghost use Rattle.std.specs.Prelude.{◌≡◌, ◌∷◌, IfOk, option_map};
ghost use Rattle.wire_view.specs.Reading.{Gives, call_at, proposed_at, voted_at, carried_at};

use crate::WireFault;
use crate::block::{BlockView, read_block};
use crate::cert::{CertView, read_cert};
use crate::fields::{prefix, read_byte, read_digest, read_seal, read_short_count, read_u32};
use crate::order::{OrderView, read_tagged};
use seq_base::kinds::{PROPOSE, VOTE};
use seq_base::{Digest, Message, NoMemory, Seal, Vote};
use std::alloc::Global;
use std::marker::Model;

/// A message that names a view and a certificate, in place: NewView or Ask.
#[derive(Drop)]
pub struct CallView<'a> {
    kind: u8,
    replica: u32,
    view: u32,
    cert: CertView<'a>,
    statement: &'a [u8],
    seal: &'a [u8],
}

impl<'a> Model for CallView<'a> {
    ghost use Rattle.wire_view.specs.Views.{Call};

    ghost Value = { Call };

    ghost use Rattle.std.specs.Prelude.{◌≡◌};
    ghost use Rattle.seq_base.specs.Spelling.{call_spelling};

    ghost view = { λ c. record { kind = c.kind; replica = c.replica; view = c.view; cert = c.cert; seal = c.seal.now } };

    ghost invariant = { λ c. c.statement.now ≡ call_spelling c.kind c.replica c.view c.cert };
}

impl<'a> CallView<'a> {
    ghost use Rattle.seq_base.specs.Spelling.{call_spelling};

    pub fn replica(&self) -> u32
        ensures { result ≡ self.now.replica }
    {
        self.replica
    }

    pub fn view(&self) -> u32
        ensures { result ≡ self.now.view }
    {
        self.view
    }

    pub fn cert(&self) -> CertView<'a>
        ensures { result ≡ self.now.cert }
    {
        self.cert.again()
    }

    /// The bytes that the sender sealed.
    pub fn statement(&self) -> &'a [u8]
        ensures { result.now ≡ call_spelling self.now.kind self.now.replica self.now.view self.now.cert }
    {
        self.statement
    }

    pub fn seal(&self) -> &'a [u8]
        ensures { result.now ≡ self.now.seal }
    {
        self.seal
    }
}

/// A proposal of a block, in place.
#[derive(Drop)]
pub struct ProposeView<'a> {
    replica: u32,
    block: BlockView<'a>,
    statement: &'a [u8],
    seal: &'a [u8],
}

impl<'a> Model for ProposeView<'a> {
    ghost use Rattle.wire_view.specs.Views.{Proposed};

    ghost Value = { Proposed };

    ghost use Rattle.std.specs.Prelude.{◌≡◌};
    ghost use Rattle.seq_base.specs.Spelling.{propose_spelling};

    ghost view = { λ p. record { replica = p.replica; block = p.block; seal = p.seal.now } };

    ghost invariant = { λ p. p.statement.now ≡ propose_spelling p.replica p.block };
}

impl<'a> ProposeView<'a> {
    ghost use Rattle.seq_base.specs.Spelling.{propose_spelling};

    pub fn replica(&self) -> u32
        ensures { result ≡ self.now.replica }
    {
        self.replica
    }

    pub fn block(&self) -> BlockView<'a>
        ensures { result ≡ self.now.block }
    {
        self.block.again()
    }

    /// The bytes that the sender sealed.
    pub fn statement(&self) -> &'a [u8]
        ensures { result.now ≡ propose_spelling self.now.replica self.now.block }
    {
        self.statement
    }

    pub fn seal(&self) -> &'a [u8]
        ensures { result.now ≡ self.now.seal }
    {
        self.seal
    }
}

/// A vote with the local order that it carries, in place.
#[derive(Drop)]
pub struct VoteView<'a> {
    replica: u32,
    view: u32,
    block: Digest,
    statement: &'a [u8],
    seal: &'a [u8],
    order: Option<OrderView<'a>>,
}

impl<'a> Model for VoteView<'a> {
    ghost use Rattle.wire_view.specs.Views.{Voted};

    ghost Value = { Voted };

    ghost use Rattle.std.specs.Prelude.{◌≡◌};
    ghost use Rattle.seq_base.specs.Spelling.{vote_spelling};

    ghost view = { λ v. record { vote = record { replica = v.replica; view = v.view; block = v.block; seal = v.seal.now }; order = v.order } };

    ghost invariant = { λ v. v.statement.now ≡ vote_spelling v.replica v.view v.block };
}

impl<'a> VoteView<'a> {
    ghost use Rattle.seq_base.specs.Spelling.{vote_spelling};
    ghost use Rattle.wire_view.specs.Messages.{IsShortMessage};

    pub fn replica(&self) -> u32
        ensures { result ≡ self.now.vote.replica }
    {
        self.replica
    }

    pub fn view(&self) -> u32
        ensures { result ≡ self.now.vote.view }
    {
        self.view
    }

    /// The digest of the block that the vote is for.
    pub fn block(&self) -> Digest
        ensures { result ≡ self.now.vote.block }
    {
        self.block
    }

    /// The local order that the vote carries.
    pub fn order(&self) -> Option<OrderView<'a>>
        ensures { result ≡ self.now.order }
    {
        match &self.order {
            None => None,
            Some(order) => Some(order.again()),
        }
    }

    /// The bytes that the sender sealed.
    pub fn statement(&self) -> &'a [u8]
        ensures { result.now ≡ vote_spelling self.now.vote.replica self.now.vote.view self.now.vote.block }
    {
        self.statement
    }

    pub fn seal(&self) -> &'a [u8]
        ensures { result.now ≡ self.now.vote.seal }
    {
        self.seal
    }

    fn own(&self, alloc: Global) -> Result<Message, NoMemory>
        ensures value { IfOk result (λ message. message ≡ Message.Vote self.now.vote self.now.order) }
        ensures short { IfOk result (λ message. IsShortMessage message) }
    {
        let vote = Vote {
            replica: self.replica,
            view: self.view,
            block: self.block,
            seal: own_seal(alloc, self.seal)?,
        };
        match &self.order {
            None => Ok(Message::Vote { vote, order: None }),
            Some(order) => Ok(Message::Vote {
                vote,
                order: Some(order.own(alloc)?),
            }),
        }
    }
}

/// A message, in place.
#[derive(Drop)]
pub enum MessageView<'a> {
    NewView(CallView<'a>),
    Ask(CallView<'a>),
    Order(OrderView<'a>),
    Propose(ProposeView<'a>),
    Vote(VoteView<'a>),
    Fetch(Digest),
    Give(BlockView<'a>),
}

impl<'a> MessageView<'a> {
    ghost use Rattle.wire_view.specs.Messages.{statement_of, seal_of, message_of, IsShortMessage};

    /// The bytes that the sender sealed. A Fetch and a Give are not sealed.
    pub fn statement(&self) -> Option<&'a [u8]>
        ensures { option_map (λ bytes. bytes.now) result ≡ statement_of self.now }
    {
        match self {
            MessageView::NewView(call) => Some(call.statement()),
            MessageView::Ask(call) => Some(call.statement()),
            MessageView::Order(order) => Some(order.statement()),
            MessageView::Propose(proposal) => Some(proposal.statement()),
            MessageView::Vote(vote) => Some(vote.statement()),
            MessageView::Fetch(_) => None,
            MessageView::Give(_) => None,
        }
    }

    /// The sender's seal.
    pub fn seal(&self) -> Option<&'a [u8]>
        ensures { option_map (λ bytes. bytes.now) result ≡ seal_of self.now }
    {
        match self {
            MessageView::NewView(call) => Some(call.seal()),
            MessageView::Ask(call) => Some(call.seal()),
            MessageView::Order(order) => Some(order.seal()),
            MessageView::Propose(proposal) => Some(proposal.seal()),
            MessageView::Vote(vote) => Some(vote.seal()),
            MessageView::Fetch(_) => None,
            MessageView::Give(_) => None,
        }
    }

    /// An owned copy of the message.
    pub fn own(&self, alloc: Global) -> Result<Message, NoMemory>
        ensures value { IfOk result (λ message. message ≡ message_of self.now) }
        ensures short { IfOk result (λ message. IsShortMessage message) }
    {
        match self {
            MessageView::NewView(call) => Ok(Message::NewView {
                replica: call.replica(),
                view: call.view(),
                cert: call.cert.own(alloc)?,
                seal: own_seal(alloc, call.seal())?,
            }),
            MessageView::Ask(call) => Ok(Message::Ask {
                replica: call.replica(),
                view: call.view(),
                cert: call.cert.own(alloc)?,
                seal: own_seal(alloc, call.seal())?,
            }),
            MessageView::Order(order) => Ok(Message::Order(order.own(alloc)?)),
            MessageView::Propose(proposal) => Ok(Message::Propose {
                replica: proposal.replica(),
                block: proposal.block.own(alloc)?,
                seal: own_seal(alloc, proposal.seal())?,
            }),
            MessageView::Vote(vote) => vote.own(alloc),
            MessageView::Fetch(block) => Ok(Message::Fetch { block: *block }),
            MessageView::Give(block) => Ok(Message::Give {
                block: block.own(alloc)?,
            }),
        }
    }
}

fn own_seal(alloc: Global, seal: &[u8]) -> Result<Seal, NoMemory>
    ensures { IfOk result (λ owned. owned ≡ seal.now) }
{
    Ok(Seal::of(Vec::from_slice(alloc, seal)?))
}

/// A NewView or an Ask, without its kind. The statement is the kind and the rest.
#[tactic(auto, unfolding(crate::specs::Reading::call_at))]
pub(crate) fn read_call<'a>(
    kind: u8,
    statement: &'a [u8],
    rest: &'a [u8],
) -> Result<(CallView<'a>, &'a [u8]), WireFault>
    requires { statement.now ≡ kind ∷ rest.now }
    ensures { Gives (λ x. (x.0, x.1.now)) result (call_at kind rest.now) }
{
    let (replica, rest) = read_byte(rest)?;
    let (view, rest) = read_u32(rest)?;
    let (cert, rest) = read_cert(rest)?;
    let statement = prefix(statement, rest);
    let (seal, rest) = read_seal(rest)?;
    let call = CallView {
        kind,
        replica,
        view,
        cert,
        statement,
        seal,
    };
    Ok((call, rest))
}

/// A proposal, without its kind.
#[tactic(auto, unfolding(crate::specs::Reading::proposed_at))]
pub(crate) fn read_proposal<'a>(
    statement: &'a [u8],
    rest: &'a [u8],
) -> Result<(ProposeView<'a>, &'a [u8]), WireFault>
    requires { statement.now ≡ PROPOSE ∷ rest.now }
    ensures { Gives (λ x. (x.0, x.1.now)) result (proposed_at rest.now) }
{
    let (replica, rest) = read_byte(rest)?;
    let (block, rest) = read_block(rest)?;
    let statement = prefix(statement, rest);
    let (seal, rest) = read_seal(rest)?;
    let proposal = ProposeView {
        replica,
        block,
        statement,
        seal,
    };
    Ok((proposal, rest))
}

/// A vote, without its kind.
#[tactic(auto, unfolding(crate::specs::Reading::voted_at))]
pub(crate) fn read_vote<'a>(
    statement: &'a [u8],
    rest: &'a [u8],
) -> Result<(VoteView<'a>, &'a [u8]), WireFault>
    requires { statement.now ≡ VOTE ∷ rest.now }
    ensures { Gives (λ x. (x.0, x.1.now)) result (voted_at rest.now) }
{
    let (replica, rest) = read_byte(rest)?;
    let (view, rest) = read_u32(rest)?;
    let (block, rest) = read_digest(rest)?;
    let statement = prefix(statement, rest);
    let (seal, rest) = read_seal(rest)?;
    let (order, rest) = read_carried(rest)?;
    let vote = VoteView {
        replica,
        view,
        block,
        statement,
        seal,
        order,
    };
    Ok((vote, rest))
}

/// The local order that a vote carries, after its count of 0 or 1.
#[tactic(auto, unfolding(crate::specs::Reading::carried_at))]
fn read_carried(bytes: &[u8]) -> Result<(Option<OrderView<'_>>, &[u8]), WireFault>
    ensures { Gives (λ x. (x.0, x.1.now)) result (carried_at bytes.now) }
{
    let (count, rest) = read_short_count(1, bytes)?;
    if count == 0 {
        return Ok((None, rest));
    }
    let (order, rest) = read_tagged(0, false, rest)?;
    Ok((Some(order), rest))
}
