//! Each key with a single value, the faulty replicas and the clients, with each of their faults.
use crate::words::mismatches;
use std::test::Fail;

const FIRST_FOUR: &str = "\
n||missing n
n|n = \"1\"|kind n
n|n = -1|range n
n|n = 4294967296|range n
f||missing f
f|f = \"1\"|kind f
f|f = -1|range f
f|f = 4294967296|range f
p||missing p
p|p = \"1\"|kind p
p|p = -1|range p
p|p = 4294967296|range p
q||missing q
q|q = \"1\"|kind q
q|q = -1|range q
q|q = 4294967296|range q
n|n = 0|setting replicas
n|n = 17|setting replicas
q|q = 0|setting gamma
p|p = 0|setting gamma
f|f = 2|setting resilience
n|n = 4|setting resilience
";

#[test]
fn the_first_four_keys(rt: HostRuntime) -> Result<(), Fail> {
    let mismatches = mismatches(rt.alloc(), FIRST_FOUR)?;
    assert_eq!(rt; mismatches.as_str(), "");
    Ok(())
}

const ONE_VALUE: &str = "\
seed||missing seed
seed|seed = true|kind seed
seed|seed = -1|range seed
seed|seed = 9223372036854775807|read
height||missing height
height|height = 5.0|kind height
views||missing views
views|views = 5.0|kind views
ticks||missing ticks
ticks|ticks = 5.0|kind ticks
turns||missing turns
turns|turns = 5.0|kind turns
height|height = 4|range height
height|height = 6|range height
height|height = 9|range height
height|height = 11|range height
|levels = 0|range levels
|levels = 3|range levels
|levels = \"1\"|kind levels
|levels = 1|read
views|views = 0|range views
views|views = 7|range views
views|views = 4001|range views
ticks|ticks = -1|range ticks
ticks|ticks = 1000|read
ticks|ticks = 1001|range ticks
turns|turns = -1|range turns
turns|turns = 200000|read
turns|turns = 200001|range turns
|print = 1|kind print
|print = \"all\"|range print
|print = \"batches\"|read
";

#[test]
fn each_key_of_one_value(rt: HostRuntime) -> Result<(), Fail> {
    let mismatches = mismatches(rt.alloc(), ONE_VALUE)?;
    assert_eq!(rt; mismatches.as_str(), "");
    Ok(())
}

const FAULTY_AND_CLIENTS: &str = "\
|faulty = 1|kind faulty
|faulty = [true]|kind faulty[0]
|faulty = [5]|range faulty[0]
|faulty = [4, -1]|range faulty[1]
|faulty = [2, 2]|double faulty[1]
|faulty = [2, 4]|range faulty
|faulty = []|read
|client = 1|kind client
|client = [1]|kind client[0]
|[[client]]/id = 9/count = 2/name = 1|unknown client[0].name
|[[client]]/count = 2|missing client[0].id
|[[client]]/id = \"9\"/count = 2|kind client[0].id
|[[client]]/id = 0/count = 2|range client[0].id
|[[client]]/id = 4294967296/count = 2|range client[0].id
|[[client]]/id = 9/count = 2/[[client]]/id = 9/count = 2|double client[1].id
|[[client]]/id = 9|missing client[0].count
|[[client]]/id = 9/count = []|kind client[0].count
|[[client]]/id = 9/count = 0|range client[0].count
|[[client]]/id = 9/count = 65537|range client[0].count
|client = [1, 2, 3, 4, 5, 6, 7, 8, 9, 10, 11, 12, 13, 14, 15, 16, 17]|range client
|[[client]]/id = 9/count = 65536|read
|[[client]]/id = 9/count = 65536/[[arrival]]/replica = 3/turn = 0/txs = [\"1.1.1\"]|range arrival
";

#[test]
fn faulty_replicas_and_clients(rt: HostRuntime) -> Result<(), Fail> {
    let mismatches = mismatches(rt.alloc(), FAULTY_AND_CLIENTS)?;
    assert_eq!(rt; mismatches.as_str(), "");
    Ok(())
}

const FIRST_FAULT: &str = "\
|Z = 1/b = 1/|unknown Z
n|zz = 1|unknown zz
n|print = 1|missing n
turns|ticks_ = 1|unknown ticks_
views|views = 7/print = 1/faulty = 2|range views
|arrival = 1/link = 1|kind arrival
|deed = 1/restart = 1/link = 1|kind link
|n = 6|toml
|x|toml
";

#[test]
fn the_first_fault_is_reported(rt: HostRuntime) -> Result<(), Fail> {
    let mismatches = mismatches(rt.alloc(), FIRST_FAULT)?;
    assert_eq!(rt; mismatches.as_str(), "");
    Ok(())
}
