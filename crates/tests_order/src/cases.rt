//! Cases as lines of text: a question, its input, and the answer, which an independent program computed.
use crate::{classes, devices, graphs, lines, numbers, reports, small, sorted, texts, updates};
use fair_propose::propose;
use majority_graph::Proposal;
use plan_text::read_order_text;
use std::alloc::Global;
use std::test::Fail;

/// No transaction comes last in every list, and the two smallest transactions tie.
const TIE: &str =
    "setting 5 1 1 1\norder 1.1.0 2.1.0 3.1.0\norder 2.1.0 3.1.0 1.1.0\norder 3.1.0 1.1.0 2.1.0\norder 1.1.0 2.1.0 3.1.0\n";

/// The same lists with other clients, so that the tie closes a cycle.
const CYCLE: &str =
    "setting 5 1 1 1\norder 2.1.0 3.1.0 1.1.0\norder 3.1.0 1.1.0 2.1.0\norder 1.1.0 2.1.0 3.1.0\norder 2.1.0 3.1.0 1.1.0\n";

/// One shaded transaction has a path to the solid one, and one does not.
const KEPT_AND_CUT: &str =
    "setting 5 1 1 1\norder 1.1.0 2.1.0 3.1.0\norder 1.1.0 2.1.0\norder 2.1.0 3.1.0\norder 2.1.0 4.1.0\n";

/// Two shaded transactions. Both weights between them are below the threshold.
const MISSING_PAIR: &str =
    "setting 9 1 3 4\norder 1.1.0 2.1.0 3.1.0\norder 1.1.0 2.1.0 3.1.0\norder 2.1.0 1.1.0 3.1.0\norder 2.1.0 1.1.0 3.1.0\norder 3.1.0\norder 3.1.0\norder 3.1.0\norder 3.1.0\n";

/// A cycle of three transactions between two single ones.
const CYCLE_BETWEEN: &str =
    "setting 5 1 1 1\norder 1.1.0 3.1.0 4.1.0 2.1.0 5.1.0\norder 1.1.0 4.1.0 2.1.0 3.1.0 5.1.0\norder 1.1.0 2.1.0 3.1.0 4.1.0 5.1.0\norder 1.1.0 3.1.0 4.1.0 2.1.0 5.1.0\n";

/// A cycle of three transactions before another cycle.
const TWO_CYCLES: &str =
    "setting 5 1 1 1\norder 2.1.0 3.1.0 1.1.0 6.1.0 4.1.0 5.1.0\norder 3.1.0 1.1.0 2.1.0 4.1.0 5.1.0 6.1.0\norder 1.1.0 2.1.0 3.1.0 5.1.0 6.1.0 4.1.0\norder 2.1.0 3.1.0 1.1.0 5.1.0 6.1.0 4.1.0\n";

/// Three shaded transactions and no solid one.
const ONLY_SHADED: &str =
    "setting 5 1 1 1\norder 1.1.0 2.1.0\norder 1.1.0 2.1.0\norder 3.1.0\norder 3.1.0\n";

/// One replica, whose list is not in ascending order.
const ONE_REPLICA: &str = "setting 1 0 1 1\norder 2.1.0 1.1.0\n";

/// Transactions of one client.
const EQUAL_CLIENTS: &str =
    "setting 5 1 1 1\norder 1.2.0 1.1.7 1.10.0 1.1.0\norder 1.1.0 1.10.0 1.2.0\norder 1.10.0 1.1.7 1.1.0\norder 1.1.7 1.2.0 1.10.0\n";

/// All transactions but one are in only one list, and one list is empty.
const EACH_ALONE: &str =
    "setting 5 1 1 1\norder 7.1.0 2.1.0\norder\norder 7.1.0 3.1.0\norder 9.1.0 7.1.0\n";

/// Empty lists.
const NOTHING: &str = "setting 5 1 1 1\norder\norder\norder\norder\n";

/// Fails at the first case with another answer than expected, and reports that answer. A case is a line with bars
/// between its parts: the question, the input, and the expected answer. The input is the name of a text above, or a
/// text in which slashes replace the ends of lines.
pub(crate) fn check_cases(alloc: Global, cases: &str) -> Result<(), Fail> {
    for case in cases.lines() {
        check_case(alloc, case)?;
    }
    Ok(())
}

fn check_case(alloc: Global, case: &str) -> Result<(), Fail> {
    let (asked, rest) = case.split_once('|').unwrap_or((case, ""));
    let (input, expected) = rest.split_once('|').unwrap_or((rest, ""));
    let answer = answer(alloc, asked, input)?;
    if answer.as_str() == expected {
        return Ok(());
    }
    Err(Fail::new(format_args!("{asked}|{input}|{answer}")))
}

/// Only this function owns the text of the answer, because an owner drops it on each return path.
fn answer(alloc: Global, asked: &str, input: &str) -> Result<String, Fail> {
    let mut answer = String::new(alloc);
    write_answer(&mut answer, alloc, asked, input)?;
    Ok(answer)
}

fn write_answer(answer: &mut String, alloc: Global, asked: &str, input: &str) -> Result<(), Fail> {
    match asked {
        "small" => small::write_small(answer, alloc, input),
        "setting" => numbers::write_setting(answer, input),
        "counts" => numbers::write_counts(answer, input),
        "tx" => numbers::write_tx(answer, input),
        "number" => numbers::write_number(answer, input),
        "signs" => numbers::write_signs(answer, input),
        "text" => texts::write_lines(answer, alloc, input),
        "count" => texts::write_count(answer, alloc, input),
        "kind" => texts::write_kind(answer, alloc, input),
        "classes" => classes::write_classes(answer, alloc, text_of(input)),
        "no lists" => classes::write_no_lists(answer, alloc),
        "order text" | "line text" => reports::write_report(answer, alloc, asked, text_of(input)),
        "ranked" => sorted::write_ranked(answer, alloc, text_of(input)),
        "doubles" => sorted::write_doubles(answer, alloc),
        "sixteen lists" => reports::write_sixteen(answer, alloc),
        "source" => devices::write_source(answer, alloc, input),
        "sink" => devices::write_sink(answer, alloc, input),
        _ => write_for_proposal(answer, alloc, asked, input),
    }
}

fn write_for_proposal(
    answer: &mut String,
    alloc: Global,
    asked: &str,
    input: &str,
) -> Result<(), Fail> {
    let graph = proposed(alloc, text_of(input))?;
    match asked {
        "given to" => graphs::write_given(answer, graph, true),
        "given from" => graphs::write_given(answer, graph, false),
        "first and third" => graphs::write_first_and_third(answer, graph),
        "updated" => updates::write_updated(answer, alloc, graph),
        _ => write_for_graph(answer, alloc, asked, &graph),
    }
}

fn write_for_graph(
    answer: &mut String,
    alloc: Global,
    asked: &str,
    graph: &Proposal,
) -> Result<(), Fail> {
    match asked {
        "kept" => graphs::write_clients(answer, graph.as_slice()),
        "edges" => graphs::write_edges(answer, graph),
        "missing" => graphs::write_missing(answer, graph),
        "walks" => graphs::write_walks(answer, alloc, graph),
        "shared" => graphs::write_shared(answer, alloc, graph),
        "weighed" => updates::write_weighed(answer, alloc, graph),
        "line of all" => lines::write_line_of_three(answer, alloc, graph),
        "components" => graphs::write_components(answer, alloc, graph),
        "batches" => graphs::write_batches_of(answer, alloc, graph),
        _ => lines::write_lines(answer, alloc, graph),
    }
}

/// The proposal of a text's lists.
fn proposed(alloc: Global, text: &str) -> Result<Proposal, Fail> {
    let text = read_order_text(alloc, text.as_bytes())?;
    Ok(propose(alloc, &text.setting, text.lists.as_slice())?)
}

fn text_of(name: &str) -> &str {
    match name {
        "tie" => TIE,
        "cycle" => CYCLE,
        "kept and cut" => KEPT_AND_CUT,
        "missing pair" => MISSING_PAIR,
        "cycle between" => CYCLE_BETWEEN,
        "two cycles" => TWO_CYCLES,
        "only shaded" => ONLY_SHADED,
        "one replica" => ONE_REPLICA,
        "equal clients" => EQUAL_CLIENTS,
        "each alone" => EACH_ALONE,
        _ => NOTHING,
    }
}
