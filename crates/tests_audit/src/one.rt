//! The run of one replica, with one change at a time. Every seal is empty, and any seal fits.
//!
//! The expected answers were derived by hand from the rules. An independent program computed the same answers, except
//! for the cases on the replica that a statement names.
use crate::changes::digest_and_mismatches;
use seal_kit::LooseMaker;
use std::test::Fail;

/// One replica, which receives two transactions and later a third, finalises all three and commits the block of view 3.
const PLAN: &str = "\
    n = 1\n\
    f = 0\n\
    p = 1\n\
    q = 1\n\
    seed = 7\n\
    height = 5\n\
    views = 6\n\
    ticks = 1\n\
    turns = 40\n\
    arrival = [{ replica = 0, turn = 0, txs = [\"1.1.0\", \"2.1.0\"] }, { replica = 0, turn = 5, txs = [\"3.1.0\"] }]\n\
    ";

/// The digest of its trace, as an independent program writes it. The places in the cases refer to these bytes.
const DIGEST: &str = "d294ca4f9fd3ec58b90c17594ae0f316445120a34790e016e5a590200fc30017";

/// The expected answers for changed traces.
const CASES: &str = "\
    two transactions arrived and one is known|130-4+00000001|0.0 rule 1\n\
    two transactions arrived and three are known|130-4+00000003|0.0 rule 1\n\
    more are known than will ever arrive|130-4+00000004|0.0 rule 1\n\
    the number of known transactions falls at a tick|141-4+00000001|0.1 rule 1\n\
    the number of known transactions grows at a message|1191-4+00000004|0.8 rule 1\n\
    two transactions arrive in the reverse order|93-36\
    +000000020000000200000001000000000000000000000001000000010000000000000000|0.0 rule 1\n\
    the arrival list has them in the reverse order|36-36\
    +000000030000000200000001000000000000000000000001000000010000000000000000|0.0 rule 1\n\
    the arrival list lacks a transaction that arrived|36-52\
    +000000020000000100000001000000000000000000000002000000010000000000000000|0.7 rule 1\n\
    the arrival list has more transactions than arrived|36-52\
    +000000040000000100000001000000000000000000000002000000010000000000000000000000030000\
    0001000000000000000000000004000000010000000000000000|none\n\
    an arrival is missing|88-4+0000000f 1063-27|0.7 rule 1\n\
    an arrival comes twice|88-4+00000011 1090-0+1063:27|0.8 rule 1\n\
    a transaction that arrives again is counted|88-4+00000011 1090-0\
    +010000000100000003000000010000000000000000000000000400|0.8 rule 1\n\
    an empty list arrives|88-4+00000011 193-0+0100000000000000000200|none\n\
    a transaction arrives that was never received|88-4+00000011 2702-0\
    +010000000100000004000000010000000000000000000000000400|0.16 rule 1\n\
    a refused turn counts the list that arrives|129-1+11|0.0 rule 2\n\
    a refused tick seals a call|140-1+08|0.1 rule 2\n\
    a refused block is voted for|776-1+0d|0.5 rule 2\n\
    a refused turn seals bytes that are no statement|88-4+00000011 2702-0\
    +03000000000800000003010000000106|0.16 rule 2\n\
    a call names another replica|151-1+01|0.1 rule 2\n\
    a leader's request names another replica|256-1+01|0.2 rule 2\n\
    a proposal names another replica|528-1+01|0.4 rule 2\n\
    bytes that are no statement name another replica|88-4+00000011 2702-0\
    +0300000000000000000301000000020601|0.16 rule 2\n\
    a refused turn does nothing|88-4+00000011 2702-0+0300000000080000000300|none\n\
    a statement is sealed twice in a turn|145-1+02+146:47|0.1 rule 2\n\
    a later turn seals a statement again|88-4+00000011 193-0+135:58|0.2 rule 2\n\
    two calls for a view differ only after the view field|88-4+00000011 193-0+135:11+00000007+150:6+09\
    |0.2 rule 2\n\
    two calls for one view are truncated|88-4+00000011 2702-0\
    +030000000000000000030200000005010000000100000006010000000100|0.16 rule 2\n\
    two calls for two views are truncated|88-4+00000011 2702-0\
    +030000000000000000030200000005010000000100000006010000000200|none\n\
    bytes that are no statement are sealed twice|88-4+00000011 2702-0\
    +0300000000000000000302000000020600000000020600|none\n\
    an empty statement is sealed twice|88-4+00000011 2702-0+03000000000000000003020000000000000000|none\n\
    a second vote in a view|88-4+00000011 1300-0+1090:105+01+1196:42|0.9 rule 2\n\
    a block that is voted for is not stored|88-4+0000000f 647-223|0.5 rule 2\n\
    the parent of a block is not stored|88-4+0000000e 647-223 870-193|0.6 rule 2\n\
    a vote names another view than its block|879-4+00000002|0.6 rule 2\n\
    a vote names a block that is not stored|883-1+00|0.6 rule 2\n\
    a vote comes from a replica that does not exist|878-1+01|0.6 rule 2\n\
    a vote is for the first block|88-4+00000011 2702-0\
    +02000000002a020500000000000000000000000000000000000000000000000000000000000000000000\
    000000000000000000000300|none\n\
    a call has a certificate without votes|206-4+00000001|0.2 rule 2\n\
    a call has a certificate of a block that is not stored|210-1+01|0.2 rule 2\n\
    a call has a valid certificate of a block that is not stored|88-4+00000011 2702-0\
    +020000000031020100000000070000000111111111111111111111111111111111111111111111111111\
    11111111111111010000000000000000000300|0.16 rule 2\n\
    a call has a valid certificate of another view than its block|88-4+00000011 2702-0\
    +02000000003102010000000007000000024cd88f427ba8f3ca37b20a06a26808766a9e378186caa6a56c\
    530be712a48215010000000000000000000300|0.16 rule 2\n\
    a leader's request has a valid certificate of a block that is not stored|88-4+00000011 2702-0\
    +020000000031020200000000070000000111111111111111111111111111111111111111111111111111\
    11111111111111010000000000000000000300|0.16 rule 2\n\
    a call has a valid certificate|88-4+00000011 2702-0\
    +02000000003102010000000007000000014cd88f427ba8f3ca37b20a06a26808766a9e378186caa6a56c\
    530be712a48215010000000000000000000300|none\n\
    a call has the certificate that makes the commit|2509-193\
    +0200000000310201000000000700000005561183758ac586c183bd6f5c1743abb5fcd819313260a8987a\
    155a3d4a227fb3010000000000000000000300|none\n\
    a leader's request has the certificate that makes the commit|2509-193\
    +0200000000310202000000000700000005561183758ac586c183bd6f5c1743abb5fcd819313260a8987a\
    155a3d4a227fb3010000000000000000000300|none\n\
    a leader's request has a certificate without votes|311-4+00000001|0.3 rule 2\n\
    an order that is not checked|447-1+01|none\n\
    bytes that are no message have the reason Done|88-4+00000011 2702-0+02000000000109000000000300|none\n\
    a request for an unknown block has the reason Done|88-4+00000011 2702-0\
    +02000000002202061111111111111111111111111111111111111111111111111111111111111111000000000300\
    |none\n\
    a block is of its certificate's view|1099-4+00000001 1146-4+00000001|0.8 rule 2\n\
    an order in a block is of another view|1146-4+00000003|0.8 rule 2\n\
    an order in a block has another parent|1150-1+00|0.8 rule 2\n\
    an order in a block is of a replica that does not exist|1145-1+01|0.8 rule 2\n\
    an order in a block offers a transaction that is already proposed|1092-4+0000006e 1182-2\
    +000100000001000000010000000000000000|0.8 rule 2\n\
    an order in a block offers a pair that is not missing|1092-4+0000006e 1184-2\
    +000100000001000000010000000000000000|0.8 rule 2\n\
    a block has no orders|1092-4+00000032 1143-45+00|0.8 rule 2\n\
    a block's certificate has no votes|1092-4+0000005b 1139-4+00|0.8 rule 2\n\
    a block's certificate is of a later view than its parent|1538-4+00000001|0.10 rule 2\n\
    a block that was proposed is given|88-4+00000011 1300-0+02000000005b0207+1099:89+000000000300\
    |none\n\
    a block is proposed again|88-4+00000011 1300-0+1090:105+00|none\n\
    an order has two transactions in the reverse order|400-32\
    +0000000200000001000000000000000000000001000000010000000000000000|0.3 rule 3\n\
    an order omits a transaction|356-4+0000003a 398-34+000100000001000000010000000000000000\
    |0.3 rule 3\n\
    an order omits the first transaction|356-4+0000003a 398-34+000100000002000000010000000000000000\
    |0.3 rule 3\n\
    an order offers more transactions than are known|356-4+0000005a 398-34\
    +000300000001000000010000000000000000000000020000000100000000000000000000000300000001\
    0000000000000000|0.3 rule 3\n\
    an order offers a transaction that is already proposed|824-4+0000003a 866-2\
    +000100000001000000010000000000000000|0.5 rule 3\n\
    an order offers a transaction that arrives later|824-4+0000003a 866-2+000100000003000000010000000000000000\
    |0.5 rule 3\n\
    an order has a pair in its late list that is not missing|824-4+0000003a 868-2\
    +000100000001000000010000000000000000|0.5 rule 3\n\
    an order names a parent that is not stored|366-1+01|0.3 rule 3\n\
    an order names a parent that is stored later|366-32+792:32|0.3 rule 3\n\
    an order is of a far later view|362-4+00000384|none\n\
    an order is of another replica|361-1+07|0.3 rule 2\n\
    an order has a byte after its end|356-4+0000004b 434-0+00|0.3 rule 3\n\
    an order is only its kind|356-4+00000001 361-73|0.3 rule 3\n\
    a vote is of view 0|788-4+00000000|0.5 rule 4\n\
    a vote is only its kind|782-4+00000001 787-37|0.5 rule 4\n\
    a vote comes after one of a later view|88-4+00000011 1195-1+01 1196-42 1735-0+1090:105+01\
    +1196:42|0.11 rule 4\n\
    a vote is of the view of the lock|88-4+00000011 1646-1+01 1647-42 2033-1+01 2034-42 2315-0\
    +1525:121+01+1647:42|0.14 rule 4\n\
    a vote is of a view below the lock|88-4+00000011 1195-1+01 1196-42 1646-1+01 1647-42 2033-1\
    +01 2034-42 2315-0+1090:105+01+1196:42|0.14 rule 4\n\
    a vote is of the first view above the lock|88-4+00000011 2033-1+01 2034-42 2315-0+1928:105+01\
    +2034:42|none\n\
    a vote names another block|792-1+00|0.5 rule 5\n\
    a vote names a later view than its block|788-4+00000009|0.5 rule 5\n\
    a vote has a byte after its end|782-4+00000027 824-0+00|0.5 rule 5\n\
    a vote ends within its block|782-4+00000025 823-1|0.5 rule 5\n\
    a vote is of another replica|787-1+07|0.5 rule 2\n\
    a tick seals a vote|88-4+00000011 2702-0+030000000000000000030100000026+786:2+00000009+792:32\
    |0.16 rule 5\n\
    a given block is voted for|649-4+00000078 653-3+0207 774-2|0.5 rule 5\n\
    a vote is for a block on another branch than the lock|88-4+00000011 2702-0+02000000005e020400+00000007+1103:43\
    +00000007+1150:38+0000\
    +000000000301000000260500000000072e46042676a702ea788951efe38375af2cad276fff918920565f\
    10b9a8c0e00d|0.16 rule 5\n\
    a block on another branch is accepted without a vote|88-4+00000011 2702-0+02000000005e020400\
    +00000007+1103:43+00000007+1150:38+0000+000000000300|none\n\
    a vote is for a block on another branch, over a later certificate|88-4+00000012 2702-0\
    +02000000005b+0207+00000007+1103:43+00000007+1150:38+000000000300\
    +02000000005e02040000000008000000072e46042676a702ea788951efe38375af2cad276fff91892056\
    5f10b9a8c0e00d01000000010300000000082e46042676a702ea788951efe38375af2cad276fff9189205\
    65f10b9a8c0e00d0000000000000000000000000301000000260500000000083b83b3b703d2800a1f9b6f\
    2724fcd36b42ccfce32190644dcec7798e9595bf2d|none\n\
    a vote is for a block on another branch, over a certificate of the lock's view|88-4+00000012 2702-0\
    +02000000005b+0207+00000004+1103:43+00000004+1150:38+000000000300\
    +02000000005e02040000000008000000047cdd903ff2d296c6c48df8ec52606030d6d71341e655c7295d\
    773529167b1e1a01000000010300000000087cdd903ff2d296c6c48df8ec52606030d6d71341e655c7295\
    d773529167b1e1a00000000000000000000000003010000002605000000000870816f761255f1a30da6e2\
    a789c32cc65d66877b3ad2c34dd45b6d01db43b02d|0.17 rule 5\n\
    the first of two locks of the same view stays|88-4+00000014 2702-0+02000000005b+0207+00000004\
    +1103:43+00000004+1150:38+000000000300\
    +02000000005e02040000000008000000047cdd903ff2d296c6c48df8ec52606030d6d71341e655c7295d\
    773529167b1e1a01000000010300000000087cdd903ff2d296c6c48df8ec52606030d6d71341e655c7295\
    d773529167b1e1a0000000000000000000000000300\
    +02000000005e0204000000000a0000000870816f761255f1a30da6e2a789c32cc65d66877b3ad2c34dd4\
    5b6d01db43b02d010000000103000000000a70816f761255f1a30da6e2a789c32cc65d66877b3ad2c34dd\
    45b6d01db43b02d0000000000000000000000000300\
    +02000000005e0204000000000b000000047cdd903ff2d296c6c48df8ec52606030d6d71341e655c7295d\
    773529167b1e1a010000000103000000000b7cdd903ff2d296c6c48df8ec52606030d6d71341e655c7295\
    d773529167b1e1a00000000000000000000000003010000002605000000000b4157c35e334334fe990b41\
    0df312c8536d21b44862ec7943b55438fc99684cbc|0.19 rule 5\n\
    a lock moves to another branch|88-4+00000014 2702-0+02000000005b+0207+00000007+1103:43\
    +00000007+1150:38+000000000300\
    +02000000005e02040000000008000000072e46042676a702ea788951efe38375af2cad276fff91892056\
    5f10b9a8c0e00d01000000010300000000082e46042676a702ea788951efe38375af2cad276fff9189205\
    65f10b9a8c0e00d0000000000000000000000000300\
    +02000000005e0204000000000a000000083b83b3b703d2800a1f9b6f2724fcd36b42ccfce32190644dce\
    c7798e9595bf2d010000000103000000000a3b83b3b703d2800a1f9b6f2724fcd36b42ccfce32190644dc\
    ec7798e9595bf2d0000000000000000000000000300\
    +02000000005e0204000000000b000000072e46042676a702ea788951efe38375af2cad276fff91892056\
    5f10b9a8c0e00d010000000103000000000b2e46042676a702ea788951efe38375af2cad276fff9189205\
    65f10b9a8c0e00d00000000000000000000000003010000002605000000000ba4ec4f581f5a37a90f3cab\
    3d4c641df4a268c789773d196a08bf2fca99b6e098|none\n\
    a vote is for a block on another branch than the moved lock|88-4+00000014 2702-0+02000000005b+0207\
    +00000007+1103:43+00000007+1150:38+000000000300\
    +02000000005e02040000000008000000072e46042676a702ea788951efe38375af2cad276fff91892056\
    5f10b9a8c0e00d01000000010300000000082e46042676a702ea788951efe38375af2cad276fff9189205\
    65f10b9a8c0e00d0000000000000000000000000300\
    +02000000005e0204000000000a000000083b83b3b703d2800a1f9b6f2724fcd36b42ccfce32190644dce\
    c7798e9595bf2d010000000103000000000a3b83b3b703d2800a1f9b6f2724fcd36b42ccfce32190644dc\
    ec7798e9595bf2d0000000000000000000000000300\
    +02000000005e0204000000000b000000014cd88f427ba8f3ca37b20a06a26808766a9e378186caa6a56c\
    530be712a48215010000000103000000000b4cd88f427ba8f3ca37b20a06a26808766a9e378186caa6a56\
    c530be712a4821500000000000000000000000003010000002605000000000bea6960740abbf8739cc2de\
    3792f85956c6481c67338a306f4ad8f4f13d6fb52e|0.19 rule 5\n\
    the recorded commit is one view too early|2706-4+00000002|0.16 rule 6\n\
    the recorded commit is one view too late|2706-4+00000004|0.16 rule 6\n\
    the recorded view is another|2702-4+00000009|none\n\
    the votes that make the commit are not delivered|88-4+0000000f 2509-193|0.15 rule 6\n\
    both the commit and the batches are wrong|2706-8+0000000200000000 2714-60|0.16 rule 6\n\
    there are no events|88-4+00000000 92-2610|0.0 rule 6\n\
    there are no events and no results|88-4+00000000 92-2682+000000000000000000000000|none\n\
    the last batch is missing|2710-4+00000002 2754-20|0.16 rule 7\n\
    the first batch is missing|2710-4+00000002 2714-20|0.16 rule 7\n\
    all batches are missing|2710-64+00000000|0.16 rule 7\n\
    a batch is there twice|2710-4+00000004 2774-0+2754:20|0.16 rule 7\n\
    two batches are in the reverse order|2718-16+00000002000000010000000000000000 2738-16\
    +00000001000000010000000000000000|0.16 rule 7\n\
    two batches are joined|2710-8+0000000200000002 2734-4|0.16 rule 7\n\
    a batch has another transaction|2773-1+01|0.16 rule 7\n\
    a transaction is twice in a batch|2714-20+00000002+2718:16+2718:16|0.16 rule 7\n\
    an empty batch is appended|2710-4+00000004 2774-0+00000000|0.16 rule 7\n\
    the trace is empty|0-2774|bad 0\n\
    the first byte is changed|0-1+52|bad 0\n\
    the last byte is missing|2773-1|bad 2766\n\
    a byte follows the end|2774-0+00|bad 2774\n\
    the setting has no replicas|8-1+00|bad 8\n\
    the denominator is 0|12-2+0000|bad 8\n\
    an invalid setting is reported before its truncated last number|8-2766+00+00000100|bad 12\n\
    there are no views|14-4+00000000|bad 14\n\
    there are more views than seals|14-4+00000007|bad 14\n\
    the largest number of views of any run|14-4+00000fa0 26-1+04|none\n\
    one view more than that|14-4+00000fa1 26-1+04|bad 14\n\
    there are no views, and the seed is truncated|14-2760+00000000+00|bad 18\n\
    there are no views, and the code of the height is unknown|14-4+00000000 26-1+05|bad 26\n\
    more seals serve more views|14-4+00000007 26-1+02|none\n\
    the code of the height is unknown|26-1+05|bad 26\n\
    any seed is valid|18-8+ffffffffffffffff|none\n\
    a replica is faulty, but none may be|35-1+01+00|bad 35\n\
    a transaction is received twice|72-16+00000001000000010000000000000000|bad 72\n\
    a list that arrives has a transaction twice|113-16+00000001000000010000000000000000|bad 113\n\
    an arrival list is too long|36-4+00010001|bad 36\n\
    a list that arrives is too long|93-4+00010001|bad 93\n\
    a batch is too long|2714-4+00010001|bad 2714\n\
    the kind of an event is unknown|135-1+04|bad 135\n\
    a message comes from a replica that does not exist|194-1+01|bad 194\n\
    a message is longer than the rest of the trace|195-4+ffffffff|bad 199\n\
    a reason is unknown|140-1+12|bad 140\n\
    three statements are sealed|145-1+03|bad 145\n\
    a statement is longer than the rest of the trace|2607-4+ffffffff|bad 2611\n\
    an entry is missing|88-4+00000011|bad 2702\n\
    ";

#[test]
fn the_record_of_one_replica_is_audited_rule_by_rule(rt: HostRuntime) -> Result<(), Fail> {
    let alloc = rt.alloc();
    let answer = digest_and_mismatches(alloc, &LooseMaker::new(alloc), PLAN, CASES)?;
    assert_eq!(rt; answer.as_str(), DIGEST);
    Ok(())
}
