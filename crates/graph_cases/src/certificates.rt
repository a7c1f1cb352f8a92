//! Certificates of graphs, and where they fail first.
ghost use Rattle.std.specs.Prelude.{◌≡◌, ◌≤◌, IfOk, length};
ghost use Rattle.colour_graph.specs.Graph.{greatest_graph};
ghost use Rattle.tree_certificate.specs.BoundHolds.{depth_of, splits_of};
ghost use Rattle.tree_certificate.specs.BoundView.{bound_value};

use crate::numbers::{number, numbers, place};
use certificate_checker::{check_cert, check_prices};
use colour_graph::{Allowed, ColourGraph};
use sqlite_items::{Boxed, Items};
use std::alloc::{AllocError, Global};
use std::io;
use tree_certificate::{Bound, Cert, PriceCert, TableCert};

/// Prints what is said of prices, potentials and an upper bound, and whether they hold on the set of all edges.
pub fn prices(rt: &HostRuntime, graph: &ColourGraph, case: &str) -> io::Result<()>
    requires { length graph.now.colours ≤ greatest_graph }
{
    let (upper, text) = case.split_once('|').unwrap_or((case, ""));
    let all = Allowed::all(rt.alloc(), graph)?;
    if let Some(cert) = prices_of(rt.alloc(), text)? {
        let holds = check_prices(graph, &all, &cert, number(upper));
        let cert = Cert::Bounds(Bound::Priced(cert));
        let verdict = check_cert(rt.alloc(), graph, &cert, number(upper))?;
        return println!(rt; "  {holds} {verdict:?}");
    }
    println!(rt; "  no prices")
}

/// Prices and potentials of a text, which a slash parts.
pub fn prices_of(alloc: Global, text: &str) -> Result<Option<PriceCert>, AllocError> {
    let (prices, potentials) = text.split_once('/').unwrap_or((text, ""));
    Ok(PriceCert::new(numbers(alloc, prices)?, numbers(alloc, potentials)?))
}

/// Prints what is said of a table and an upper bound. Slashes part its rows.
pub fn table(rt: &HostRuntime, graph: &ColourGraph, case: &str) -> io::Result<()>
    requires { length graph.now.colours ≤ greatest_graph }
{
    let (upper, text) = case.split_once('|').unwrap_or((case, ""));
    let mut rows = Vec::new(rt.alloc());
    for row in text.split('/') {
        rows.push(numbers(rt.alloc(), row)?)?;
    }
    match TableCert::new(rows) {
        Some(table) => {
            let verdict = check_cert(rt.alloc(), graph, &Cert::Table(table), number(upper))?;
            println!(rt; "  {verdict:?}")
        }
        None => println!(rt; "  no table"),
    }
}

/// Prints what is said of a split of all edges and an upper bound. The split stands behind it, the colour before the
/// edges of its part; then the prices of the two sides.
pub fn split(rt: &HostRuntime, graph: &ColourGraph, case: &str) -> io::Result<()>
    requires { length graph.now.colours ≤ greatest_graph }
{
    let (upper, rest) = case.split_once('|').unwrap_or((case, ""));
    let (text, sides) = rest.split_once('|').unwrap_or((rest, ""));
    let (first, second) = sides.split_once('|').unwrap_or((sides, ""));
    match (
        prices_of(rt.alloc(), first)?,
        prices_of(rt.alloc(), second)?,
    ) {
        (Some(first), Some(second)) => {
            let cert = Cert::Bounds(split_of(rt.alloc(), text, first, second)?);
            let verdict = check_cert(rt.alloc(), graph, &cert, number(upper))?;
            println!(rt; "  {verdict:?}")
        }
        _ => println!(rt; "  no prices"),
    }
}

/// The bound of one split, whose colour and part stand in a text.
pub fn split_of(
    alloc: Global,
    text: &str,
    first: PriceCert,
    second: PriceCert,
) -> Result<Bound, AllocError>
    ensures depth { IfOk result (λ bound. depth_of (bound_value bound) ≡ 1) }
    ensures splits { IfOk result (λ bound. splits_of (bound_value bound) ≡ 1) }
{
    let (word, edges) = text.split_once(' ').unwrap_or((text, ""));
    let colour = place(word);
    let mut part = Vec::new(alloc);
    for edge in edges.split_whitespace() {
        part.push(u32::from(place(edge)))?;
    }
    let first = Boxed::new(alloc, Bound::Priced(first))?;
    let second = Boxed::new(alloc, Bound::Priced(second))?;
    Ok(Bound::Split(colour, Items::from_vec(part), first, second))
}
