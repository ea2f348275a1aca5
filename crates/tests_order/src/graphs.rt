//! Kept transactions of proposals, edges by weights, walks, components and batches.
ghost use Rattle.std.specs.Prelude.{◌≡◌, length};

use crate::cases::check_cases;
use condense::{Grouping, components};
use fair_finalize::{FinalFault, batches};
use majority_graph::{Edge, Proposal};
use seq_base::{BatchList, Tx};
use std::alloc::Global;
use std::fmt::Write;
use std::test::Fail;
use walks::{Reach, closure};

/// The clients of the kept transactions: those with a walk to a solid one.
const KEPT: &str = "\
kept|tie| 1 2 3
kept|kept and cut| 1 2
kept|cycle between| 1 2 3 4 5
kept|only shaded|
kept|nothing|
kept|one replica| 1 2
";

/// `edges` has a bar for each vertex, followed by a sign for the edge to each vertex. `missing` is the first pair
/// without an edge, and the `given` ones are the edges after that pair gets one. `first and third` has the edges of
/// two of three vertices.
const EDGES: &str = "\
edges|tie||.>>|<.>|<<.
edges|cycle||.><|<.>|><.
edges|missing pair||..>|..>|<<.
edges|nothing|
missing|cycle|none
missing|missing pair|0 1
given to|missing pair||.>>|<.>|<<.
given from|missing pair||.<>|>.>|<<.
first and third|cycle||.<|>.: 1 3
first and third|nothing|
";

/// A bar for each vertex, followed by whether a walk leads to each vertex.
const WALKS: &str = "\
walks|tie||xxx|.xx|..x
walks|cycle||xxx|xxx|xxx
walks|missing pair||x.x|.xx|..x
walks|cycle between||xxxxx|.xxxx|.xxxx|.xxxx|....x
";

/// `components` has the count of components and the number of each vertex's component. `batches` has a bar for each
/// batch, followed by the clients. `shared` has a bar for each vertex, followed by whether it shares its component
/// with each vertex.
const COMPONENTS: &str = "\
components|tie|3: 0 1 2
components|cycle|1: 0 0 0
components|cycle between|3: 0 1 1 1 2
components|two cycles|2: 0 0 0 1 1 1
components|nothing|0:
batches|tie|| 1| 2| 3
batches|cycle|| 1 2 3
batches|cycle between|| 1| 2 3 4| 5
batches|two cycles|| 1 2 3| 4 5 6
batches|nothing|
batches|missing pair|incomplete: 1 2
shared|missing pair|3:|x..|.x.|..x
shared|cycle between|3:|x....|.xxx.|.xxx.|.xxx.|....x
";

#[test]
fn proposals_keep_what_leads_to_a_solid_one(rt: HostRuntime) -> Result<(), Fail> {
    check_cases(rt.alloc(), KEPT)
}

#[test]
fn edges_are_by_weights(rt: HostRuntime) -> Result<(), Fail> {
    check_cases(rt.alloc(), EDGES)
}

#[test]
fn walks_lead_along_edges(rt: HostRuntime) -> Result<(), Fail> {
    check_cases(rt.alloc(), WALKS)
}

#[test]
fn components_and_batches_are_numbered_along_edges(rt: HostRuntime) -> Result<(), Fail> {
    check_cases(rt.alloc(), COMPONENTS)
}

/// The transaction of a client in the cases.
pub(crate) fn tx(client: u32) -> Tx {
    Tx {
        client,
        number: 1,
        payload: 0,
    }
}

/// A space and the client of a transaction, with a star if it is not the one of the cases.
pub(crate) fn write_client(answer: &mut String, known: &Tx) -> Result<(), Fail> {
    let client = known.client;
    let star = if *known == tx(client) { "" } else { "*" };
    Ok(write!(answer, " {client}{star}")?)
}

/// The clients of transactions.
pub(crate) fn write_clients(answer: &mut String, txs: &[Tx]) -> Result<(), Fail> {
    for known in txs {
        write_client(answer, known)?;
    }
    Ok(())
}

pub(crate) fn write_edges(answer: &mut String, graph: &Proposal) -> Result<(), Fail> {
    for u in 0..graph.len() {
        answer.push('|')?;
        for v in 0..graph.len() {
            answer.push(sign_of(graph.edge(u, v)))?;
        }
    }
    Ok(())
}

pub(crate) fn sign_of(edge: Edge) -> char {
    match edge {
        Edge::To => '>',
        Edge::From => '<',
        Edge::Missing => '.',
    }
}

pub(crate) fn write_missing(answer: &mut String, graph: &Proposal) -> Result<(), Fail> {
    match graph.first_missing() {
        Some((u, v)) => Ok(write!(answer, "{u} {v}")?),
        None => Ok(answer.push_str("none")?),
    }
}

/// The edges after the first missing pair gets this one.
pub(crate) fn write_given(answer: &mut String, mut graph: Proposal, to: bool) -> Result<(), Fail> {
    if let Some((u, v)) = graph.first_missing() {
        graph.set_edge(u, v, to);
    }
    write_edges(answer, &graph)
}

/// The edges and the clients of the first and the third of three vertices.
pub(crate) fn write_first_and_third(answer: &mut String, graph: Proposal) -> Result<(), Fail> {
    if graph.len() != 3 {
        return Ok(());
    }
    let kept = graph.keep(&[true, false, true])?;
    write_kept(answer, &kept)
}

fn write_kept(answer: &mut String, graph: &Proposal) -> Result<(), Fail> {
    write_edges(answer, graph)?;
    answer.push(':')?;
    write_clients(answer, graph.as_slice())
}

pub(crate) fn write_walks(
    answer: &mut String,
    alloc: Global,
    graph: &Proposal,
) -> Result<(), Fail> {
    let reach = closure(alloc, graph)?;
    write_reach(answer, graph.len(), &reach)
}

fn write_reach(answer: &mut String, count: u32, reach: &Reach) -> Result<(), Fail>
    requires { length reach.now ≡ count }
{
    for u in 0..count {
        answer.push('|')?;
        for v in 0..count {
            answer.push(if reach.reaches(u, v) { 'x' } else { '.' })?;
        }
    }
    Ok(())
}

pub(crate) fn write_components(
    answer: &mut String,
    alloc: Global,
    graph: &Proposal,
) -> Result<(), Fail> {
    let groups = components(alloc, graph)?;
    write_groups(answer, groups.count(), groups.as_slice())
}

fn write_groups(answer: &mut String, count: u32, numbers: &[u32]) -> Result<(), Fail> {
    write!(answer, "{count}:")?;
    write_numbers(answer, numbers)
}

pub(crate) fn write_numbers(answer: &mut String, numbers: &[u32]) -> Result<(), Fail> {
    for number in numbers {
        write!(answer, " {number}")?;
    }
    Ok(())
}

pub(crate) fn write_shared(
    answer: &mut String,
    alloc: Global,
    graph: &Proposal,
) -> Result<(), Fail> {
    let groups = components(alloc, graph)?;
    write_shares(answer, graph.len(), &groups)
}

fn write_shares(answer: &mut String, len: u32, groups: &Grouping) -> Result<(), Fail>
    requires { length groups.now.numbers ≡ len }
{
    let count = groups.count();
    write!(answer, "{count}:")?;
    for u in 0..len {
        answer.push('|')?;
        for v in 0..len {
            let is_shared = groups.of(u) == groups.of(v);
            answer.push(if is_shared { 'x' } else { '.' })?;
        }
    }
    Ok(())
}

pub(crate) fn write_batches_of(
    answer: &mut String,
    alloc: Global,
    graph: &Proposal,
) -> Result<(), Fail> {
    match batches(alloc, graph) {
        Ok(batches) => write_batches(answer, &batches),
        Err(fault) => write_fault(answer, &fault),
    }
}

fn write_batches(answer: &mut String, batches: &BatchList) -> Result<(), Fail> {
    for batch in batches.as_slice() {
        answer.push('|')?;
        write_clients(answer, batch.as_slice())?;
    }
    Ok(())
}

fn write_fault(answer: &mut String, fault: &FinalFault) -> Result<(), Fail> {
    match fault {
        FinalFault::Incomplete { u, v } => {
            answer.push_str("incomplete:")?;
            write_client(answer, u)?;
            write_client(answer, v)
        }
        FinalFault::NoMemory => Ok(answer.push_str("no memory")?),
    }
}
