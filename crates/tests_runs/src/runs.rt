//! Whole runs of small plans. The answers are the counts of ticks and turns, and a replica's view, the view of its
//! commit, and its batches.
use crate::cases::check_cases;
use std::alloc::{AllocError, Global};
use std::test::Fail;

/// Plans are the names of their parts. Seals are digests.
const RUNS: &str = "\
ticks turns third|digests five calm|0 0 0/0
ticks turns third|digests most_views calm|0 0 0/0
ticks turns third|digests five a_then_b calm|1 49 5/1 | 1.1.0 | 2.1.0
ticks turns third|digests five a_then_b two_blocks|2 79 6/3 | 1.1.0 | 2.1.0
ticks turns third|digests five a_then_b reverse|1 49 5/1 | 1.1.0 | 2.1.0
ticks turns third|digests five a_then_b noise|1 54 5/1 | 1.1.0 | 2.1.0
ticks turns third|digests five a_then_b stale|1 49 5/1 | 1.1.0 | 2.1.0
ticks turns third|digests five a_then_b forge|1 50 5/1 | 1.1.0 | 2.1.0
ticks turns third|digests five a_then_b garbled|1 49 5/1 | 1.1.0 | 2.1.0
ticks turns third|digests five a_then_b lossy|1 14 1/0
ticks turns third|digests nine late_edge calm|1 126 6/3 | 1.1.0 | 2.1.0 | 3.1.0 | 4.1.0
ticks turns third|digests nine shaded one_faulty|1 108 6/2 | 2.1.0 | 3.1.0 | 1.1.0
";

/// The number of entries with a reason in a replica's journal.
const REASONS: &str = "\
short@1|digests five a_then_b noise|2
bad_seal@1|digests five a_then_b garbled|1
foreign@2|digests five a_then_b forge|1
repeat@0|digests five a_then_b lossy|1
old_view@1|digests five a_then_b lossy|1
";

/// The verdicts of runs, with signatures as seals, and with seals that any replica could make. A forged vote is found
/// if any seal fits, and is refused as foreign if seals are signatures. A block that is delivered to all replicas
/// collides with nothing. With two-level HSS the run and its text are the same.
const VERDICTS: &str = "\
verdict turns|nothing five a_then_b forge|forged 2 5 0 1 50
verdict turns foreign@2|signatures five a_then_b forge|done 50 1
collision verdict|nothing five a_then_b calm|none done
verdict text|signatures five two_levels a_then_b calm|done setting n=5 f=1 gamma=1/1 threshold=2 solid=3 quorum=4;ticks=1 turns=49;replica 0 view=5 commit=1 batches=2 transactions=2;batch 1 1.1.0;batch 2 2.1.0;replica 1 view=5 commit=1 batches=2 transactions=2;batch 1 1.1.0;batch 2 2.1.0;replica 2 view=5 commit=1 batches=2 transactions=2;batch 1 1.1.0;batch 2 2.1.0;replica 3 view=5 commit=1 batches=2 transactions=2;batch 1 1.1.0;batch 2 2.1.0;replica 4 view=4 commit=1 batches=2 transactions=2;batch 1 1.1.0;batch 2 2.1.0;end done;
";

/// The texts of runs. A faulty replica is omitted. Half messages and a garbled message do not change the other
/// replicas. A summary omits the batches.
const TEXTS: &str = "\
text|digests five a_then_b stale|setting n=5 f=1 gamma=1/1 threshold=2 solid=3 quorum=4;ticks=1 turns=49;replica 0 view=5 commit=1 batches=2 transactions=2;batch 1 1.1.0;batch 2 2.1.0;replica 1 view=5 commit=1 batches=2 transactions=2;batch 1 1.1.0;batch 2 2.1.0;replica 3 view=5 commit=1 batches=2 transactions=2;batch 1 1.1.0;batch 2 2.1.0;replica 4 view=4 commit=1 batches=2 transactions=2;batch 1 1.1.0;batch 2 2.1.0;end done;
text|digests five a_then_b noise|setting n=5 f=1 gamma=1/1 threshold=2 solid=3 quorum=4;ticks=1 turns=54;replica 1 view=5 commit=1 batches=2 transactions=2;batch 1 1.1.0;batch 2 2.1.0;replica 2 view=5 commit=1 batches=2 transactions=2;batch 1 1.1.0;batch 2 2.1.0;replica 3 view=5 commit=1 batches=2 transactions=2;batch 1 1.1.0;batch 2 2.1.0;replica 4 view=4 commit=1 batches=2 transactions=2;batch 1 1.1.0;batch 2 2.1.0;end done;
text|digests five a_then_b garbled|setting n=5 f=1 gamma=1/1 threshold=2 solid=3 quorum=4;ticks=1 turns=49;replica 0 view=5 commit=1 batches=2 transactions=2;batch 1 1.1.0;batch 2 2.1.0;replica 1 view=5 commit=1 batches=2 transactions=2;batch 1 1.1.0;batch 2 2.1.0;replica 2 view=5 commit=1 batches=2 transactions=2;batch 1 1.1.0;batch 2 2.1.0;replica 3 view=5 commit=1 batches=2 transactions=2;batch 1 1.1.0;batch 2 2.1.0;replica 4 view=4 commit=1 batches=2 transactions=2;batch 1 1.1.0;batch 2 2.1.0;end done;
summary|digests five a_then_b calm|setting n=5 f=1 gamma=1/1 threshold=2 solid=3 quorum=4;ticks=1 turns=49;replica 0 view=5 commit=1 batches=2 transactions=2;replica 1 view=5 commit=1 batches=2 transactions=2;replica 2 view=5 commit=1 batches=2 transactions=2;replica 3 view=5 commit=1 batches=2 transactions=2;replica 4 view=4 commit=1 batches=2 transactions=2;end done;
";

#[test]
fn runs_have_the_expected_counts_and_batches(rt: HostRuntime) -> Result<(), Fail> {
    check_cases(rt.alloc(), RUNS)
}

#[test]
fn faulty_sends_have_their_reasons(rt: HostRuntime) -> Result<(), Fail> {
    check_cases(rt.alloc(), REASONS)
}

#[test]
fn records_have_the_expected_verdicts(rt: HostRuntime) -> Result<(), Fail> {
    check_cases(rt.alloc(), VERDICTS)
}

#[test]
fn runs_have_their_texts(rt: HostRuntime) -> Result<(), Fail> {
    check_cases(rt.alloc(), TEXTS)
}

/// Five replicas, one of which may be faulty, with γ = 1.
const FIVE: &str = "n = 5\nf = 1\np = 1\nq = 1\nseed = 7\nheight = 5\nviews = 6\nturns = 200\n";

/// Each of them receives a and then b.
const A_THEN_B: &str = "arrival = [{ replica = 0, turn = 0, txs = [\"1.1.0\", \"2.1.0\"] }, \
    { replica = 1, turn = 0, txs = [\"1.1.0\", \"2.1.0\"] }, { replica = 2, turn = 0, txs = [\"1.1.0\", \"2.1.0\"] }, \
    { replica = 3, turn = 0, txs = [\"1.1.0\", \"2.1.0\"] }, { replica = 4, turn = 0, txs = [\"1.1.0\", \"2.1.0\"] }]\n";

/// Four replicas, with the greatest number of views that a plan may have.
const MAX_VIEWS: &str =
    "n = 4\nf = 0\np = 1\nq = 1\nseed = 7\nheight = 10\nlevels = 2\nviews = 4000\nturns = 100\n";

/// Nine replicas, one of which may be faulty, with γ = 3/4.
const NINE: &str = "n = 9\nf = 1\np = 3\nq = 4\nseed = 7\nheight = 5\nviews = 6\nturns = 300\n";

/// The edge between a and b is missing in the first block, and the late lists of the third block give it.
const LATE_EDGE: &str =
    "arrival = [{ replica = 0, turn = 0, txs = [\"1.1.0\", \"2.1.0\", \"3.1.0\"] }, \
    { replica = 1, turn = 0, txs = [\"1.1.0\", \"2.1.0\", \"3.1.0\"] }, \
    { replica = 2, turn = 0, txs = [\"2.1.0\", \"1.1.0\", \"3.1.0\"] }, \
    { replica = 3, turn = 0, txs = [\"2.1.0\", \"1.1.0\", \"3.1.0\"] }, \
    { replica = 4, turn = 0, txs = [\"3.1.0\"] }, { replica = 5, turn = 0, txs = [\"3.1.0\"] }, \
    { replica = 6, turn = 0, txs = [\"3.1.0\"] }, { replica = 7, turn = 0, txs = [\"3.1.0\"] }, \
    { replica = 8, turn = 0, txs = [\"3.1.0\"] }, \
    { replica = 0, turn = 25, txs = [\"4.1.0\"] }, { replica = 1, turn = 25, txs = [\"4.1.0\"] }, \
    { replica = 2, turn = 25, txs = [\"4.1.0\"] }, { replica = 3, turn = 25, txs = [\"4.1.0\"] }, \
    { replica = 4, turn = 25, txs = [\"4.1.0\"] }, { replica = 5, turn = 25, txs = [\"4.1.0\"] }, \
    { replica = 6, turn = 25, txs = [\"4.1.0\"] }, { replica = 7, turn = 25, txs = [\"4.1.0\"] }, \
    { replica = 8, turn = 25, txs = [\"4.1.0\"] }, \
    { replica = 4, turn = 45, txs = [\"1.1.0\", \"2.1.0\"] }, { replica = 5, turn = 45, txs = [\"1.1.0\", \"2.1.0\"] }, \
    { replica = 6, turn = 45, txs = [\"1.1.0\", \"2.1.0\"] }, { replica = 7, turn = 45, txs = [\"1.1.0\", \"2.1.0\"] }, \
    { replica = 8, turn = 45, txs = [\"1.1.0\", \"2.1.0\"] }]\n";

/// b is only shaded when it is proposed. a is proposed later and finalised after b, though most replicas received it
/// first.
const SHADED: &str = "arrival = [{ replica = 0, turn = 0, txs = [\"2.1.0\", \"3.1.0\"] }, \
    { replica = 1, turn = 0, txs = [\"2.1.0\", \"3.1.0\"] }, { replica = 2, turn = 0, txs = [\"2.1.0\", \"3.1.0\"] }, \
    { replica = 3, turn = 0, txs = [\"1.1.0\", \"2.1.0\", \"3.1.0\"] }, \
    { replica = 4, turn = 0, txs = [\"3.1.0\"] }, { replica = 5, turn = 0, txs = [\"3.1.0\"] }, \
    { replica = 6, turn = 0, txs = [\"3.1.0\"] }, { replica = 7, turn = 0, txs = [\"3.1.0\"] }, \
    { replica = 8, turn = 0, txs = [\"3.1.0\"] }, \
    { replica = 0, turn = 25, txs = [\"1.1.0\"] }, { replica = 1, turn = 25, txs = [\"1.1.0\"] }, \
    { replica = 2, turn = 25, txs = [\"1.1.0\"] }, \
    { replica = 4, turn = 25, txs = [\"1.1.0\", \"2.1.0\"] }, { replica = 5, turn = 25, txs = [\"1.1.0\", \"2.1.0\"] }, \
    { replica = 6, turn = 25, txs = [\"1.1.0\", \"2.1.0\"] }, { replica = 7, turn = 25, txs = [\"1.1.0\", \"2.1.0\"] }, \
    { replica = 8, turn = 25, txs = [\"1.1.0\", \"2.1.0\"] }]\n";

/// Calls and orders are lost, duplicated and held back, so that no block is proposed.
const LOSSY: &str =
    "ticks = 1\nlink = [{ from = 3, to = 1, number = 2, fault = \"lose\" }, { from = 4, to = 1, number = 2, fault = \"lose\" }, \
    { from = 1, to = 0, number = 1, fault = \"twice\" }, { from = 2, to = 1, number = 1, fault = \"hold\", count = 1 }]\n";

/// Links and replicas without faults.
const CALM: &str = "ticks = 1\n";

const GARBLED: &str = "ticks = 1\nlink = [{ from = 0, to = 1, number = 1, fault = \"garble\" }]\n";

const ONE_FAULTY: &str = "ticks = 1\nfaulty = [0]\n";

const TWO_BLOCKS: &str =
    "ticks = 2\nfaulty = [1]\ndeed = [{ replica = 1, view = 1, deed = \"two_blocks\" }]\n";

const REVERSE: &str =
    "ticks = 1\nfaulty = [0]\ndeed = [{ replica = 0, view = 0, deed = \"reverse\" }]\n";

const NOISE: &str =
    "ticks = 1\nfaulty = [0]\ndeed = [{ replica = 0, view = 0, deed = \"noise\" }]\n";

const STALE: &str =
    "ticks = 1\nfaulty = [2]\ndeed = [{ replica = 2, view = 1, deed = \"stale\" }]\n";

const FORGE: &str =
    "ticks = 1\nfaulty = [0]\ndeed = [{ replica = 0, view = 1, deed = \"forge\" }]\n";

const TWO_LEVELS: &str = "levels = 2\n";

/// Nine replicas, one of which may be faulty, with γ = 1, and no faults.
const NINE_CLEAN: &str =
    "n = 9\nf = 1\np = 1\nq = 1\nseed = 3\nheight = 5\nviews = 6\nticks = 1\nturns = 144\n";

const CLIENT_128: &str = "[[client]]\nid = 1\ncount = 128\n";

const CLIENT_129: &str = "[[client]]\nid = 1\ncount = 129\n";

/// The plan of the parts with these names.
pub(crate) fn plan_of(alloc: Global, names: &str) -> Result<String, AllocError> {
    let mut text = String::new(alloc);
    for name in names.split_whitespace() {
        text.push_str(part_of(name))?;
    }
    Ok(text)
}

fn part_of(name: &str) -> &'static str {
    match name {
        "five" => FIVE,
        "nine" => NINE,
        "most_views" => MAX_VIEWS,
        "two_levels" => TWO_LEVELS,
        "nine_clean" => NINE_CLEAN,
        "client_128" => CLIENT_128,
        "client_129" => CLIENT_129,
        "a_then_b" => A_THEN_B,
        "late_edge" => LATE_EDGE,
        "shaded" => SHADED,
        _ => faults_of(name),
    }
}

fn faults_of(name: &str) -> &'static str {
    match name {
        "lossy" => LOSSY,
        "garbled" => GARBLED,
        "one_faulty" => ONE_FAULTY,
        "two_blocks" => TWO_BLOCKS,
        "reverse" => REVERSE,
        "noise" => NOISE,
        "stale" => STALE,
        "forge" => FORGE,
        "calm" => CALM,
        _ => "no such part\n",
    }
}
