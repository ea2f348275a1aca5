//! The run of five replicas, one of which is faulty, with changes in the records of the others.
//!
//! The expected answers were derived by hand from the rules. An independent program computed the same answers, except
//! for the cases on the replica that a statement names.
use crate::changes::digest_and_mismatches;
use seal_kit::TagMaker;
use std::test::Fail;

/// Replica 1 forges votes. Replica 4 does not receive the block of view 2, and fetches it.
const PLAN: &str = "\
    n = 5\n\
    f = 1\n\
    p = 1\n\
    q = 1\n\
    seed = 7\n\
    height = 10\n\
    views = 9\n\
    ticks = 2\n\
    turns = 400\n\
    faulty = [1]\n\
    arrival = [\n\
      { replica = 0, turn = 0, txs = [\"1.1.0\", \"2.1.0\"] },\n\
      { replica = 1, turn = 0, txs = [\"2.1.0\", \"1.1.0\"] },\n\
      { replica = 2, turn = 0, txs = [\"1.1.0\", \"2.1.0\"] },\n\
      { replica = 3, turn = 0, txs = [\"2.1.0\", \"1.1.0\"] },\n\
      { replica = 4, turn = 0, txs = [\"1.1.0\", \"2.1.0\"] },\n\
    ]\n\
    link = [{ from = 2, to = 4, number = 1, fault = \"lose\" }]\n\
    deed = [{ replica = 1, view = 0, deed = \"forge\" }]\n\
    ";

/// The digest of its trace, as an independent program writes it. The places in the cases refer to these bytes.
const DIGEST: &str = "246411535f02c455ba73984c67382a9ca3c9f2de9b23385f2a5fc400b4bbc42b";

/// The expected answers for changed traces.
const CASES: &str = "\
    a run with a faulty replica||none\n\
    the replica after the faulty one knows too few transactions|7727-4+00000001|2.0 rule 1\n\
    the last honest replica records another commit|31132-4+00000006|4.21 rule 6\n\
    the last honest replica has no batches|31136-44+00000000|4.21 rule 7\n\
    a given block has a certificate of n-f-1 votes|25664-4+000001c5 25710-1+03 25816-35\
    |4.10 rule 2\n\
    a given block has a changed seal|25714-1+cf|4.10 rule 2\n\
    a given block has a certificate of all votes|25664-4+0000020b 25710-1+05 25851-0\
    +040020ed888890273739549763ee3e4f2daf6a8d9a58c386a2933355f79d449bf81844|4.10 rule 2\n\
    a call has a certificate with a changed seal|2644-1+55|0.8 rule 2\n\
    a leader's request has a certificate with a changed seal|3981-1+55|0.13 rule 2\n\
    the views are not consecutive, so nothing is committed|217-4+00000016 7010-623 7637-48\
    +0000000000000000|none\n\
    a block is recorded as committed although a view is missing|217-4+00000016 7010-623 7637-4\
    +00000002|0.22 rule 6\n\
    the parent of a given block is not stored|23509-4+00000014 25662-500|4.10 rule 2\n\
    an orphan has the reason Done|24922-1+00|4.4 rule 2\n\
    a forged vote has the reason Done|8973-1+00|2.6 rule 2\n\
    a late vote has the reason Done|9951-1+00|none\n\
    a block that was given twice has the reason Done twice|27156-1+00|none\n\
    an order is drawn for the faulty replica|8528-1+01|2.3 rule 2\n\
    a vote names the faulty replica|8486-1+01|2.3 rule 2\n\
    the largest number of views for five replicas|14-4+00000a3d 26-1+04|none\n\
    one view more than that|14-4+00000a3e 26-1+04|bad 14\n\
    two replicas are faulty, but at most one may be|35-2+020102|bad 35\n\
    a faulty replica does not exist|36-1+05|bad 36\n\
    ";

#[test]
fn honest_records_are_audited_alongside_a_faulty_replica(rt: HostRuntime) -> Result<(), Fail> {
    let alloc = rt.alloc();
    let answer = digest_and_mismatches(alloc, &TagMaker::new(alloc), PLAN, CASES)?;
    assert_eq!(rt; answer.as_str(), DIGEST);
    Ok(())
}
