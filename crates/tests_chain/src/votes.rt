//! Votes for one block, the certificate that they form, and whether it is valid.
use quorum_cert::{Took, VoteBox, cert_ok};
use seal_kit::{Height, SealMaker, TagChecker, TagMaker};
use seq_base::{Bytes, Cert, CertVote, CertVotes, Digest, Message, NoMemory, Seal, Setting, Vote};
use std::alloc::Global;
use std::test::Fail;
use wire_view::{MessageView, read};
use wire_write::{digest, vote_bytes, write_message};

/// Properties of a vote box that starts empty.
const BOXES: [&str; 2] = [
    "the fourth replica of five forms a certificate",
    "votes that do not fit the box are refused",
];

/// Certificates, and whether they are valid.
const CERTS: [(&str, bool); 5] = [
    ("of four in a row", true),
    ("of four in another order", true),
    ("of another view", false),
    ("of three", false),
    ("of the first block", true),
];

#[test]
fn votes_form_a_certificate(rt: HostRuntime) -> Result<(), Fail> {
    for case in BOXES {
        if !holds(rt.alloc(), case)? {
            return Err(Fail::new(case));
        }
    }
    Ok(())
}

#[test]
fn only_whole_certificates_with_fitting_seals_are_good(rt: HostRuntime) -> Result<(), Fail> {
    for (case, is_good) in CERTS {
        if is_good_of(rt.alloc(), case)? != is_good {
            return Err(Fail::new(case));
        }
    }
    Ok(())
}

const BLOCK: Digest = Digest([7; 32]);

fn checker(alloc: Global) -> Result<TagChecker, NoMemory> {
    Ok(TagMaker::new(alloc).make(1, Height::H5, 5)?.checker)
}

/// A vote. Its seal is the digest of a replica's number and of the bytes of that replica's vote for the block in view
/// 3.
fn vote(
    alloc: Global,
    sealed_by: u8,
    replica: u32,
    view: u32,
    block: Digest,
) -> Result<Vote, NoMemory> {
    Ok(Vote {
        replica,
        view,
        block,
        seal: seal(alloc, sealed_by)?,
    })
}

fn seal(alloc: Global, replica: u8) -> Result<Seal, NoMemory> {
    let mut bytes = vec![in alloc; replica]?;
    bytes.extend_from_slice(&vote_bytes(u32::from(replica), 3, &BLOCK))?;
    Ok(Seal::of(digest(bytes.as_slice()).0.to_vec(alloc)?))
}

fn word(took: &Took) -> &'static str {
    match took {
        Took::Kept => "kept",
        Took::Again => "again",
        Took::Foreign => "foreign",
        Took::BadSeal => "bad seal",
        Took::Formed(_) => "formed",
    }
}

fn holds(alloc: Global, case: &str) -> Result<bool, Fail> {
    let setting = Setting::new(5, 1, 1, 1)?;
    Ok(holds_at_first(alloc, setting, case)?)
}

/// Only this function owns the box. It has a single return path, because each path drops the box.
fn holds_at_first(alloc: Global, setting: Setting, case: &str) -> Result<bool, NoMemory> {
    let checker = checker(alloc)?;
    let mut votes = VoteBox::new(alloc, setting, 3, BLOCK);
    Ok(holds_of(alloc, &mut votes, &checker, case))
}

fn holds_of(alloc: Global, votes: &mut VoteBox, checker: &TagChecker, case: &str) -> bool {
    match case {
        "the fourth replica of five forms a certificate" => fourth_forms(alloc, votes, checker),
        "votes that do not fit the box are refused" => are_foreign(alloc, votes, checker),
        _ => false,
    }
}

fn is_answered(
    votes: &mut VoteBox,
    checker: &TagChecker,
    vote: Result<Vote, NoMemory>,
    answer: &str,
) -> bool {
    match vote {
        Ok(vote) => took_is(&votes.take(vote, checker), answer),
        Err(NoMemory) => false,
    }
}

fn took_is(took: &Result<Took, NoMemory>, answer: &str) -> bool {
    match took {
        Ok(took) => word(took) == answer,
        Err(NoMemory) => false,
    }
}

/// Each replica votes once, and the first a second time.
fn fourth_forms(alloc: Global, votes: &mut VoteBox, checker: &TagChecker) -> bool {
    is_voted(alloc, votes, checker, 0, "kept")
        && is_voted(alloc, votes, checker, 0, "again")
        && is_voted(alloc, votes, checker, 1, "kept")
        && is_voted(alloc, votes, checker, 2, "kept")
        && is_voted(alloc, votes, checker, 3, "formed")
        && is_voted(alloc, votes, checker, 4, "again")
}

fn is_voted(
    alloc: Global,
    votes: &mut VoteBox,
    checker: &TagChecker,
    replica: u8,
    answer: &str,
) -> bool {
    let vote = vote(alloc, replica, u32::from(replica), 3, BLOCK);
    is_answered(votes, checker, vote, answer)
}

/// Votes in another view, for another block, of a replica that does not exist, and with the seal of another replica.
fn are_foreign(alloc: Global, votes: &mut VoteBox, checker: &TagChecker) -> bool {
    is_answered(votes, checker, vote(alloc, 0, 0, 4, BLOCK), "foreign")
        && is_answered(
            votes,
            checker,
            vote(alloc, 0, 0, 3, Digest([8; 32])),
            "foreign",
        )
        && is_answered(votes, checker, vote(alloc, 5, 5, 3, BLOCK), "foreign")
        && is_answered(votes, checker, vote(alloc, 0, 1, 3, BLOCK), "bad seal")
}

/// The certificate of the votes of four replicas of five, counted in this order.
fn formed(alloc: Global, order: [u8; 4]) -> Result<Cert, Fail> {
    let setting = Setting::new(5, 1, 1, 1)?;
    let mut votes = VoteBox::new(alloc, setting, 3, BLOCK);
    formed_of(alloc, &mut votes, order)
}

fn formed_of(alloc: Global, votes: &mut VoteBox, order: [u8; 4]) -> Result<Cert, Fail> {
    for replica in order {
        if let Took::Formed(cert) = keep(alloc, votes, replica)? {
            return Ok(cert);
        }
        if !votes.has(u32::from(replica)) {
            return Err(Fail::from("a vote is kept"));
        }
    }
    Err(Fail::from("four votes form a certificate"))
}

fn keep(alloc: Global, votes: &mut VoteBox, replica: u8) -> Result<Took, NoMemory> {
    let seal = seal(alloc, replica)?;
    votes.keep(CertVote {
        replica: u32::from(replica),
        seal,
    })
}

/// The certificate of a case.
fn cert_of(alloc: Global, case: &str) -> Result<Cert, Fail> {
    match case {
        "of four in a row" => formed(alloc, [0, 1, 2, 3]),
        "of four in another order" => formed(alloc, [4, 0, 3, 1]),
        "of another view" => Ok(in_another_view(formed(alloc, [0, 1, 2, 3])?)),
        "of three" => Ok(of_three(formed(alloc, [0, 1, 2, 3])?)),
        _ => Ok(Cert {
            view: 0,
            block: Digest::FIRST,
            votes: CertVotes::of(Vec::new(alloc)),
        }),
    }
}

fn in_another_view(cert: Cert) -> Cert {
    Cert { view: 4, ..cert }
}

fn of_three(cert: Cert) -> Cert {
    let mut votes = cert.votes.into_vec();
    votes.truncate(3);
    Cert {
        view: 3,
        block: BLOCK,
        votes: CertVotes::of(votes),
    }
}

/// Whether a certificate that is written and read again is valid.
fn is_good_of(alloc: Global, case: &str) -> Result<bool, Fail> {
    let cert = cert_of(alloc, case)?;
    let bytes = written(alloc, cert)?;
    is_good(alloc, bytes.as_slice())
}

fn written(alloc: Global, cert: Cert) -> Result<Bytes, NoMemory> {
    let message = Message::NewView {
        replica: 0,
        view: 4,
        cert,
        seal: Seal::of(Vec::new(alloc)),
    };
    write_message(alloc, &message)
}

fn is_good(alloc: Global, bytes: &[u8]) -> Result<bool, Fail> {
    let setting = Setting::new(5, 1, 1, 1)?;
    let checker = checker(alloc)?;
    match read(bytes) {
        Ok(MessageView::NewView(call)) => Ok(cert_ok(&setting, &call.cert(), &checker)),
        _ => Err(Fail::from("the message is read")),
    }
}
