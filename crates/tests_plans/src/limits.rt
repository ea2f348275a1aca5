//! Plans at a limit and beyond it.
use crate::words::{mismatches, words_of};
use std::test::Fail;

/// A sealer needs five seals for each view, and all views together have at most 65,536 pairs of replicas.
const VIEWS: &str = "\
n f seed height views ticks turns|n = 4/f = 0/seed = 0/height = 10/levels = 2/views = 4000/ticks = 0/turns = 0|read
n f seed height views ticks turns|n = 4/f = 0/seed = 0/height = 10/levels = 2/views = 4001/ticks = 0/turns = 0|range views
n f seed height views ticks turns|n = 5/f = 0/seed = 0/height = 10/levels = 2/views = 2621/ticks = 0/turns = 0|read
n f seed height views ticks turns|n = 5/f = 0/seed = 0/height = 10/levels = 2/views = 2622/ticks = 0/turns = 0|range views
n f seed height views ticks turns|n = 4/f = 0/seed = 0/height = 10/levels = 1/views = 204/ticks = 0/turns = 0|read
n f seed height views ticks turns|n = 4/f = 0/seed = 0/height = 10/levels = 1/views = 205/ticks = 0/turns = 0|range views
n f seed height views ticks turns|n = 4/f = 0/seed = 0/height = 5/levels = 2/views = 204/ticks = 0/turns = 0|read
n f seed height views ticks turns|n = 4/f = 0/seed = 0/height = 5/levels = 2/views = 205/ticks = 0/turns = 0|range views
n f seed height views ticks turns|n = 4/f = 0/seed = 0/height = 5/levels = 1/views = 6/ticks = 0/turns = 0|read
n f seed height views ticks turns|n = 4/f = 0/seed = 0/height = 5/levels = 1/views = 7/ticks = 0/turns = 0|range views
";

#[test]
fn as_many_views_as_seals_and_pairs_allow(rt: HostRuntime) -> Result<(), Fail> {
    let mismatches = mismatches(rt.alloc(), VIEWS)?;
    assert_eq!(rt; mismatches.as_str(), "");
    Ok(())
}

#[test]
fn bytes_that_are_no_text_are_no_plan(rt: HostRuntime) -> Result<(), Fail> {
    assert_eq!(rt; words_of(rt.alloc(), &[110, 61, 255])?.as_str(), "toml");
    Ok(())
}
