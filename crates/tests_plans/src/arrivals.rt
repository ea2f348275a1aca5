//! Arrivals, with each of their faults.
use crate::words::mismatches;
use std::test::Fail;

const ARRIVALS: &str = "\
|arrival = 1|kind arrival
|arrival = [\"a\"]|kind arrival[0]
|[[arrival]]/replica = 0/turn = 0/txs = [\"1.2.3\"]/to = 1|unknown arrival[0].to
|[[arrival]]/turn = 0/txs = [\"1.2.3\"]|missing arrival[0].replica
|[[arrival]]/replica = \"0\"/turn = 0/txs = [\"1.2.3\"]|kind arrival[0].replica
|[[arrival]]/replica = -1/turn = 0/txs = [\"1.2.3\"]|range arrival[0].replica
|[[arrival]]/replica = 5/turn = 0/txs = [\"1.2.3\"]|range arrival[0].replica
|[[arrival]]/replica = 0/txs = [\"1.2.3\"]|missing arrival[0].turn
|[[arrival]]/turn = \"0\"/replica = 0/txs = [\"1.2.3\"]|kind arrival[0].turn
|[[arrival]]/turn = -1/replica = 0/txs = [\"1.2.3\"]|range arrival[0].turn
|[[arrival]]/turn = 200001/replica = 0/txs = [\"1.2.3\"]|range arrival[0].turn
|[[arrival]]/replica = 0/turn = 0|missing arrival[0].txs
|[[arrival]]/replica = 0/turn = 0/txs = \"1.2.3\"|kind arrival[0].txs
|[[arrival]]/replica = 0/turn = 0/txs = [\"1.2.3\", 4]|kind arrival[0].txs[1]
|[[arrival]]/replica = 0/turn = 0/txs = [\"1.2\"]|range arrival[0].txs[0]
|[[arrival]]/replica = 0/turn = 0/txs = [\"01.2.3\"]|range arrival[0].txs[0]
|[[arrival]]/replica = 0/turn = 0/txs = [\"1.2.3.4\"]|range arrival[0].txs[0]
|[[arrival]]/replica = 0/turn = 0/txs = [\"4294967296.2.3\"]|range arrival[0].txs[0]
|[[arrival]]/replica = 0/turn = 0/txs = [\"1.4294967296.3\"]|range arrival[0].txs[0]
|[[arrival]]/replica = 0/turn = 0/txs = [\"1.2.18446744073709551616\"]|range arrival[0].txs[0]
|[[arrival]]/replica = 0/turn = 0/txs = [\"1. 2.3\"]|range arrival[0].txs[0]
|[[arrival]]/replica = 0/turn = 0/txs = [\"\"]|range arrival[0].txs[0]
|[[arrival]]/replica = 0/turn = 0/txs = [\"1.2.3\", \"1.2.4\", \"1.2.3\"]|double arrival[0].txs[2]
|[[arrival]]/replica = 0/turn = 0/txs = [\"1.2.3\"]/[[arrival]]/replica = 1/turn = 0/txs = [\"1.2.3\"]/[[arrival]]/replica = 0/turn = 9/txs = [\"4.4.4\", \"1.2.3\"]|double arrival[2].txs[1]
|[[client]]/id = 9/count = 2/[[arrival]]/replica = 0/turn = 0/txs = [\"8.1.0\", \"9.1.0\"]|double arrival[0].txs[1]
|[[arrival]]/replica = 0/turn = 0/txs = [\"1.2.3\"]/[[arrival]]/replica = 1/turn = 0/txs = [\"1.2.3\"]|read
";

#[test]
fn arrivals(rt: HostRuntime) -> Result<(), Fail> {
    let mismatches = mismatches(rt.alloc(), ARRIVALS)?;
    assert_eq!(rt; mismatches.as_str(), "");
    Ok(())
}
