//! Quorum certificates: the check of a certificate, and the collection of votes into one (HotStuff, PODC 2019).
//!
//! What a layer above may rely on: [`cert_ok`] returns true exactly for the first block's certificate, and for one of a
//! view from 1 on with exactly n-f votes, of replicas below n in strictly ascending order, each with a seal that fits
//! that replica's vote for the certificate's block and view. A [`VoteBox`] returns a certificate exactly with the vote
//! that completes n-f. The crate depends on `wire_write`, which defines the bytes of a vote, on `wire_view`, and on the
//! checkers of `seal_kit`.
#![tactic(auto)]

mod certificate;
mod laws;
mod vote_box;

pub use certificate::cert_ok;
pub use laws::{
    certificates_name_quorums, formed_certificates_are_good, good_certificates_have_quorums,
};
pub use vote_box::{Took, VoteBox};
