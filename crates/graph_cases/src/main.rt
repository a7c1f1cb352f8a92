//! Answers cases of graphs that are given as text, a line each. The kind of a case stands before its first bar, its
//! graph behind that. Below each line stands what is answered.
#![tactic(auto)]

mod certificates;
mod gaps;
mod graph_text;
mod numbers;
mod side_text;
mod trees;

use colour_graph::GREATEST_GRAPH;
use graph_text::graph_of;
use std::io;

fn main(rt: HostRuntime) -> io::Result<()> {
    for line in rt.lines(rt.alloc()) {
        let case = line?;
        println!(rt; "{case}")?;
        answer(&rt, case.as_str())?;
    }
    Ok(())
}

/// Prints what is answered to a case. A line without a bar is a remark.
fn answer(rt: &HostRuntime, case: &str) -> io::Result<()> {
    match case.split_once('|') {
        Some((kind, rest)) => answer_kind(rt, kind, rest),
        None => Ok(()),
    }
}

fn answer_kind(rt: &HostRuntime, kind: &str, case: &str) -> io::Result<()> {
    let (text, rest) = case.split_once('|').unwrap_or((case, ""));
    let graph = graph_of(rt.alloc(), text)?;
    if graph.vertex_count() > GREATEST_GRAPH {
        return println!(rt; "  too large");
    }
    match kind {
        "solve" => trees::solve(rt, &graph),
        "side" => trees::count(rt, &graph, rest),
        "bounds" => trees::bound(rt, &graph, rest),
        "prices" => certificates::prices(rt, &graph, rest),
        "table" => certificates::table(rt, &graph, rest),
        "split" => certificates::split(rt, &graph, rest),
        "gap" => gaps::gap(rt, graph, rest),
        _ => println!(rt; "  no such kind"),
    }
}
