//! The line of each batch.
ghost use Rattle.majority_graph.specs.Graph.{IsComplete};
ghost use Rattle.batch_laws.specs.Batches.{AreBatches};

use crate::cases::check_cases;
use crate::graphs::{write_clients, write_numbers};
use fair_finalize::batches;
use line_up::{line, line_of_batch};
use majority_graph::{Proposal, complete_graphs_have_all_edges};
use seq_base::{BatchList, Tx};
use std::alloc::Global;
use std::test::Fail;

/// `lines` has a bar for each batch, followed by the clients in the order of their line: each comes before the first
/// that it has an edge to. `line of all` has the three vertices of a proposal in the order of their line.
const LINES: &str = "\
lines|tie|| 1| 2| 3
lines|cycle|| 3 1 2
lines|cycle between|| 1| 4 2 3| 5
lines|two cycles|| 3 1 2| 6 4 5
line of all|tie| 0 1 2
line of all|cycle| 2 0 1
";

#[test]
fn each_comes_before_the_first_that_it_has_an_edge_to(rt: HostRuntime) -> Result<(), Fail> {
    check_cases(rt.alloc(), LINES)
}

pub(crate) fn write_lines(
    answer: &mut String,
    alloc: Global,
    graph: &Proposal,
) -> Result<(), Fail> {
    let batches = batches(alloc, graph)?;
    write_lines_of(answer, alloc, graph, &batches)
}

fn write_lines_of(
    answer: &mut String,
    alloc: Global,
    graph: &Proposal,
    batches: &BatchList,
) -> Result<(), Fail>
    requires complete { IsComplete graph.now }
    requires batches { AreBatches graph.now batches.now }
{
    let batches = batches.as_slice();
    for batch in batches {
        let line = line_of_batch(alloc, graph, batch.as_slice())?;
        write_line(answer, &line)?;
    }
    Ok(())
}

fn write_line(answer: &mut String, line: &[Tx]) -> Result<(), Fail> {
    answer.push('|')?;
    write_clients(answer, line)
}

/// The numbers of three vertices in the order of their line, if no edge is missing.
pub(crate) fn write_line_of_three(
    answer: &mut String,
    alloc: Global,
    graph: &Proposal,
) -> Result<(), Fail> {
    if graph.len() != 3 || graph.first_missing().is_some() {
        return Ok(());
    }
    complete_graphs_have_all_edges();
    let line = line(alloc, graph, &[0, 1, 2])?;
    write_numbers(answer, &line)
}
