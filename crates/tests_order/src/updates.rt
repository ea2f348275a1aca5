//! Edges from late lists: the edges that the lists give separately, and those of a proposal with a missing pair.
use crate::cases::check_cases;
use crate::graphs::{write_batches_of, write_edges};
use fair_update::update;
use majority_graph::{Proposal, weigh};
use plan_text::read_order_text;
use seq_base::TxList;
use std::alloc::Global;
use std::test::Fail;

/// Six lists hold a before b, two hold b before a, and none holds another transaction.
const LATE: &str =
    "setting 9 1 3 4\norder 1.1.0 2.1.0\norder 1.1.0 2.1.0\norder 1.1.0 2.1.0\norder 1.1.0 2.1.0\norder 1.1.0 2.1.0\norder 1.1.0 2.1.0\norder 2.1.0 1.1.0\norder 2.1.0 1.1.0\n";

/// `weighed` has the edges that these lists alone give the vertices of a proposal. `updated` has the edges of a
/// proposal after the lists gave its missing pairs their edges, and its batches.
const UPDATES: &str = "\
weighed|cycle||.>>|<.>|<<.
weighed|cycle between||.>>>>|<.>>>|<<...|<<...|<<...
updated|missing pair||.>>|<.>|<<.:| 1| 2| 3
updated|cycle||.><|<.>|><.:| 1 2 3
";

#[test]
fn late_lists_give_the_missing_edge_and_turn_none(rt: HostRuntime) -> Result<(), Fail> {
    check_cases(rt.alloc(), UPDATES)
}

pub(crate) fn write_weighed(
    answer: &mut String,
    alloc: Global,
    graph: &Proposal,
) -> Result<(), Fail> {
    let weighed = weighed(alloc, graph)?;
    write_edges(answer, &weighed)
}

fn weighed(alloc: Global, graph: &Proposal) -> Result<Proposal, Fail> {
    let late = read_order_text(alloc, LATE.as_bytes())?;
    let vertices = TxList::of(Vec::from_slice(alloc, graph.as_slice())?);
    Ok(weigh(alloc, &late.setting, vertices, late.lists.as_slice())?)
}

pub(crate) fn write_updated(
    answer: &mut String,
    alloc: Global,
    mut graph: Proposal,
) -> Result<(), Fail> {
    give_late(alloc, &mut graph)?;
    write_edges(answer, &graph)?;
    answer.push(':')?;
    write_batches_of(answer, alloc, &graph)
}

fn give_late(alloc: Global, graph: &mut Proposal) -> Result<(), Fail> {
    let late = read_order_text(alloc, LATE.as_bytes())?;
    Ok(update(alloc, &late.setting, graph, late.lists.as_slice())?)
}
