//! Links, deeds and restarts with each of their faults.
use crate::words::mismatches;
use std::test::Fail;

const LINKS: &str = "\
|link = 1|kind link
|link = [1]|kind link[0]
|[[link]]/from = 0/to = 1/number = 1/fault = \"lose\"/count = 1|unknown link[0].count
|[[link]]/from = 0/to = 1/number = 1/fault = \"lose\"/kind = 1|unknown link[0].kind
|[[link]]/from = 0/to = 1/number = 1/fault = \"twice\"/count = 1|unknown link[0].count
|[[link]]/from = 0/to = 1/number = 1/fault = \"garble\"/count = 1|unknown link[0].count
|[[link]]/to = 1/number = 1/fault = \"lose\"|missing link[0].from
|[[link]]/to = 1/number = 1/fault = \"lose\"/from = \"0\"|kind link[0].from
|[[link]]/to = 1/number = 1/fault = \"lose\"/from = -1|range link[0].from
|[[link]]/to = 1/number = 1/fault = \"lose\"/from = 5|range link[0].from
|[[link]]/from = 0/number = 1/fault = \"lose\"|missing link[0].to
|[[link]]/from = 0/number = 1/fault = \"lose\"/to = \"0\"|kind link[0].to
|[[link]]/from = 0/number = 1/fault = \"lose\"/to = -1|range link[0].to
|[[link]]/from = 0/number = 1/fault = \"lose\"/to = 5|range link[0].to
|[[link]]/from = 0/to = 1/fault = \"lose\"|missing link[0].number
|[[link]]/from = 0/to = 1/fault = \"lose\"/number = \"0\"|kind link[0].number
|[[link]]/from = 0/to = 1/fault = \"lose\"/number = -1|range link[0].number
|[[link]]/from = 0/to = 1/fault = \"lose\"/number = 200001|range link[0].number
|[[link]]/from = 0/to = 1/number = 0/fault = \"lose\"|range link[0].number
|[[link]]/from = 0/to = 1/number = 1/fault = \"lose\"/[[link]]/from = 0/to = 1/number = 1/fault = \"lose\"|double link[1].number
|[[link]]/from = 0/to = 1/number = 1|missing link[0].fault
|[[link]]/from = 0/to = 1/number = 1/fault = 1|kind link[0].fault
|[[link]]/from = 0/to = 1/number = 1/fault = \"late\"|range link[0].fault
|[[link]]/from = 0/to = 1/number = 1/fault = \"hold\"|missing link[0].count
|[[link]]/from = 0/to = 1/number = 1/fault = \"hold\"/count = \"1\"|kind link[0].count
|[[link]]/from = 0/to = 1/number = 1/fault = \"hold\"/count = 0|range link[0].count
|[[link]]/from = 0/to = 1/number = 1/fault = \"hold\"/count = 1001|range link[0].count
|[[link]]/from = 0/to = 1/number = 1/fault = \"hold\"/count = 1000/[[link]]/from = 1/to = 0/number = 1/fault = \"twice\"|read
";

#[test]
fn links(rt: HostRuntime) -> Result<(), Fail> {
    let mismatches = mismatches(rt.alloc(), LINKS)?;
    assert_eq!(rt; mismatches.as_str(), "");
    Ok(())
}

const DEEDS_AND_RESTARTS: &str = "\
|deed = 1|kind deed
|deed = [1]|kind deed[0]
|faulty = [2]/[[deed]]/replica = 2/view = 0/deed = \"silent\"/to = 1|unknown deed[0].to
|faulty = [2]/[[deed]]/view = 0/deed = \"silent\"|missing deed[0].replica
|faulty = [2]/[[deed]]/view = 0/deed = \"silent\"/replica = \"2\"|kind deed[0].replica
|faulty = [2]/[[deed]]/view = 0/deed = \"silent\"/replica = 1|range deed[0].replica
|faulty = [2]/[[deed]]/view = 0/deed = \"silent\"/replica = -2|range deed[0].replica
|faulty = [2]/[[deed]]/replica = 2/deed = \"silent\"|missing deed[0].view
|faulty = [2]/[[deed]]/replica = 2/deed = \"silent\"/view = []|kind deed[0].view
|faulty = [2]/[[deed]]/replica = 2/deed = \"silent\"/view = 7|range deed[0].view
|faulty = [2]/[[deed]]/replica = 2/deed = \"silent\"/view = -1|range deed[0].view
|faulty = [2]/[[deed]]/replica = 2/view = 0|missing deed[0].deed
|faulty = [2]/[[deed]]/replica = 2/view = 0/deed = 1|kind deed[0].deed
|faulty = [2]/[[deed]]/replica = 2/view = 0/deed = \"quiet\"|range deed[0].deed
|faulty = [2]/[[deed]]/replica = 2/view = 0/deed = \"silent\"/[[deed]]/replica = 2/view = 6/deed = \"silent\"/[[deed]]/replica = 2/view = 0/deed = \"silent\"|double deed[2].deed
|faulty = [2]/[[deed]]/replica = 2/view = 6/deed = \"stale\"/[[deed]]/replica = 2/view = 6/deed = \"reverse\"/[[deed]]/replica = 2/view = 6/deed = \"two_blocks\"/[[deed]]/replica = 2/view = 6/deed = \"forge\"/[[deed]]/replica = 2/view = 6/deed = \"noise\"/[[deed]]/replica = 2/view = 6/deed = \"silent\"|read
|restart = 1|kind restart
|restart = [1]|kind restart[0]
|faulty = [2]/[[restart]]/replica = 1/turn = 3/view = 1|unknown restart[0].view
|faulty = [2]/[[restart]]/turn = 3|missing restart[0].replica
|faulty = [2]/[[restart]]/turn = 3/replica = 5|range restart[0].replica
|faulty = [2]/[[restart]]/turn = 3/replica = 2|range restart[0].replica
|faulty = [2]/[[restart]]/turn = 3/replica = \"1\"|kind restart[0].replica
|faulty = [2]/[[restart]]/replica = 1|missing restart[0].turn
|faulty = [2]/[[restart]]/replica = 1/turn = true|kind restart[0].turn
|faulty = [2]/[[restart]]/replica = 1/turn = -1|range restart[0].turn
|faulty = [2]/[[restart]]/replica = 1/turn = 200001|range restart[0].turn
|faulty = [2]/[[restart]]/replica = 1/turn = 3/[[restart]]/replica = 0/turn = 3/[[restart]]/replica = 1/turn = 3|double restart[2].turn
|faulty = [2]/[[restart]]/replica = 1/turn = 3/[[restart]]/replica = 1/turn = 4|read
";

#[test]
fn deeds_and_restarts(rt: HostRuntime) -> Result<(), Fail> {
    let mismatches = mismatches(rt.alloc(), DEEDS_AND_RESTARTS)?;
    assert_eq!(rt; mismatches.as_str(), "");
    Ok(())
}
