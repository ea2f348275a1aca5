//! The run of three replicas, with one change at a time. Seals are digests of the sealed bytes.
//!
//! The expected answers were derived by hand from the rules. An independent program computed the same answers, except
//! for the cases on the replica that a statement names.
use crate::changes::digest_and_mismatches;
use seal_kit::TagMaker;
use std::test::Fail;

/// Three replicas, none of which may be faulty. Two receive a pair of transactions in opposite orders, and the third
/// receives it late. So the pair's edge is missing in the first block, and later orders give it.
const PLAN: &str = "\
    n = 3\n\
    f = 0\n\
    p = 2\n\
    q = 3\n\
    seed = 7\n\
    height = 5\n\
    views = 6\n\
    ticks = 2\n\
    turns = 200\n\
    arrival = [\n\
      { replica = 0, turn = 0, txs = [\"1.1.0\", \"2.1.0\", \"3.1.0\"] },\n\
      { replica = 1, turn = 0, txs = [\"2.1.0\", \"1.1.0\", \"3.1.0\"] },\n\
      { replica = 2, turn = 0, txs = [\"3.1.0\"] },\n\
      { replica = 2, turn = 14, txs = [\"1.1.0\", \"2.1.0\"] },\n\
    ]\n\
    ";

/// The digest of its trace, as an independent program writes it. The places in the cases refer to these bytes.
const DIGEST: &str = "003d338e7602ba5e4c776ca0c849287d4177f0f311d55ead87721f43b74cb579";

/// The expected answers for changed traces.
const CASES: &str = "\
    a certificate has n-f-1 votes|1050-4+000001b9 1097-1+02 1168-35|0.4 rule 2\n\
    a certificate has n-f+1 votes|1050-4+000001ff 1097-1+04 1203-0\
    +0300205631a909fde74e49078ca87da3e70af71f149d757997f10eeb382400b028b857|0.4 rule 2\n\
    a vote in a certificate is of a replica that does not exist|1168-35\
    +0300205631a909fde74e49078ca87da3e70af71f149d757997f10eeb382400b028b857|0.4 rule 2\n\
    a call of the second replica names the first one|5831-1+00|1.1 rule 2\n\
    a call of the second replica is only its kind|5826-4+00000001 5831-42|1.1 rule 2\n\
    a seal in a certificate is changed|1101-1+77|0.4 rule 2\n\
    a seal in a certificate is another replica's|1101-32+1136:32|0.4 rule 2\n\
    a replica is twice in a certificate, so the bytes are no message|1133-1+00|0.4 rule 3\n\
    a call has a certificate without votes for a block that is not stored|5886-36\
    +000000011111111111111111111111111111111111111111111111111111111111111111|1.2 rule 2\n\
    the seal of a call is not checked|5925-1+96|none\n\
    the seal of a leader's request is not checked|6242-1+5b|none\n\
    the seal of a local order is not checked|6504-1+2d|none\n\
    the seal of a proposal is not checked|1529-1+b0|none\n\
    a seal of a vote is changed|1703-1+6d|0.5 rule 2\n\
    a vote is of another replica than its seal|1664-1+01|0.5 rule 2\n\
    a vote is of a replica that does not exist|1664-1+03 1703-32\
    +272838978e8fe5d0004107a18ce822683c67070759ea2a52244d5c87865e0d05|0.5 rule 2\n\
    the order in a vote is not checked|1843-1+92|none\n\
    a replica votes twice, and another not at all|192-4+0000000e 4677-150+4353:150 5214-466\
    |0.14 rule 6\n\
    a replica votes twice, and no commit is recorded|192-4+0000000e 4677-150+4353:150 5214-466 \
    5684-68+0000000200000000|none\n\
    a seal of an order in a block is changed|1464-1+b2|0.4 rule 2\n\
    a block has n-f-1 orders|1050-4+00000190 1203-1+02 1420-76|0.4 rule 2\n\
    an order omits a missing pair|970-4+0000002a 1014-34+0000|0.3 rule 3\n\
    an order has a missing pair in the reverse order|1016-32\
    +0000000200000001000000000000000000000001000000010000000000000000|0.3 rule 3\n\
    an order has only one transaction of a missing pair|970-4+0000003a 1014-34\
    +000100000001000000010000000000000000|0.3 rule 3\n\
    an order has a missing pair in its fresh list|1012-36\
    +000200000001000000010000000000000000000000020000000100000000000000000000|0.3 rule 3\n\
    the commit is a block whose pair is missing|192-4+0000000a 3835-1845 5684-68+0000000100000000\
    |none\n\
    a batch is recorded with a transaction of a missing pair|192-4+0000000a 3835-1845 5684-8+0000000100000001 \
    5712-40|0.10 rule 7\n\
    the last replica records no last batch|16716-4+00000002 16760-20|2.16 rule 7\n\
    the last replica records another commit|16712-4+00000002|2.16 rule 6\n\
    the first of two replicas is reported|5810-4+00000002 11363-4+00000000|1.0 rule 1\n\
    the first of two replicas is reported, not the smaller rule|5688-4+00000002 5732-20 5810-4\
    +00000002|0.15 rule 7\n\
    the first of two entries is reported, not the smaller rule|260-1+08 398-4+00000002|0.1 rule 2\n\
    the smaller of two rules is reported|923-4+00000002 938-1+00|0.3 rule 1\n\
    the smaller of two rules for the same order or vote is reported|938-1+de 1016-32\
    +0000000200000001000000000000000000000001000000010000000000000000|0.3 rule 3\n\
    ";

#[test]
fn the_records_of_three_replicas_are_audited_by_seals_and_pairs(
    rt: HostRuntime,
) -> Result<(), Fail> {
    let alloc = rt.alloc();
    let answer = digest_and_mismatches(alloc, &TagMaker::new(alloc), PLAN, CASES)?;
    assert_eq!(rt; answer.as_str(), DIGEST);
    Ok(())
}
