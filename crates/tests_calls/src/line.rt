use crate::calls::{ORDINARY, all_answer, all_refused};
use seal_kit::LooseMaker;
use std::test::Fail;

/// The last proposal has a missing edge, so it has no lines.
#[test]
fn each_batch_has_its_line(rt: HostRuntime) -> Result<(), Fail> {
    let cases = [
        (
            "line|",
            ORDINARY,
            0,
            "threshold=2 solid=3 quorum=4\ntx 1.1.0 solid 4 kept\ntx 2.1.0 solid 4 kept\nbatch 1 1.1.0\nline 1 1.1.0\nbatch 2 2.1.0\nline 2 2.1.0\n",
        ),
        (
            "line|",
            "setting 5 1 1 1\norder 2.1.0 3.1.0 1.1.0\norder 3.1.0 1.1.0 2.1.0\norder 1.1.0 2.1.0 3.1.0\norder 2.1.0 3.1.0 1.1.0\n",
            0,
            "threshold=2 solid=3 quorum=4\ntx 1.1.0 solid 4 kept\ntx 2.1.0 solid 4 kept\ntx 3.1.0 solid 4 kept\nbatch 1 1.1.0 2.1.0 3.1.0\nline 1 3.1.0 1.1.0 2.1.0\n",
        ),
        (
            "line|",
            "setting 5 1 1 1\norder 1.1.0 2.1.0 3.1.0\norder 1.1.0 2.1.0\norder 2.1.0 3.1.0\norder 2.1.0 4.1.0\n",
            0,
            "threshold=2 solid=3 quorum=4\ntx 1.1.0 shaded 2 kept\ntx 2.1.0 solid 4 kept\ntx 3.1.0 shaded 2 cut\ntx 4.1.0 blank 1\nbatch 1 1.1.0\nline 1 1.1.0\nbatch 2 2.1.0\nline 2 2.1.0\n",
        ),
        (
            "line|",
            "setting 5 1 1 1\norder\norder\norder\norder\n",
            0,
            "threshold=2 solid=3 quorum=4\n",
        ),
        (
            "line|",
            "setting 9 1 3 4\norder 1.1.0 2.1.0 3.1.0\norder 1.1.0 2.1.0 3.1.0\norder 2.1.0 1.1.0 3.1.0\norder 2.1.0 1.1.0 3.1.0\norder 3.1.0\norder 3.1.0\norder 3.1.0\norder 3.1.0\n",
            6,
            "threshold=4 solid=7 quorum=8\ntx 1.1.0 shaded 4 kept\ntx 2.1.0 shaded 4 kept\ntx 3.1.0 solid 8 kept\nopen 1.1.0 2.1.0\n",
        ),
    ];
    all_answer(&rt, rt.alloc(), &LooseMaker::new(rt.alloc()), &cases)
}

#[test]
fn a_fault_of_the_input_of_line_is_named(rt: HostRuntime) -> Result<(), Fail> {
    let cases = [(
        "line|",
        "setting 4 1 1 1\norder 1.1.0\n",
        "bad plan: setting resilience",
    )];
    all_refused(&rt, rt.alloc(), &cases)
}
