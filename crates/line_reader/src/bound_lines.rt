//! One line of a bound, where something is needed: it is taken, or the reading stops there.
ghost use Rattle.std.specs.Prelude.{◌≡◌, ◌<◌, ◌^◌, ℕ, IfOk, IsTrue, map, pos};
ghost use Rattle.std.specs.List.{All};
ghost use Rattle.std.specs.Option.{option_map};
ghost use Rattle.tree_certificate.specs.Number.{AreNear};
ghost use Rattle.tree_document.specs.Line as spec;
ghost use Rattle.line_reader.specs.Head.{IsOpen, IsSmallBound, bound_head_line};
ghost use Rattle.line_fields.specs.Need.{line_at, need_bound, need_potentials};
ghost use Rattle.line_reader.specs.Taking.{Takes};

use crate::cut::{next_line, take_line};
use crate::heads::{GREATEST_EDGE, GREATEST_ROWS};
use crate::ranges::{are_signed_within, are_within, is_within};
use crate::stop::Stop;
use line_fields::a_line_has_one_spelling;
use std::alloc::{AllocError, Global};
use tree_certificate::{GREATEST_DEPTH, GREATEST_NUMBER};

/// The greatest number of edges that a split names.
const GREATEST_EDGES: u64 = GREATEST_EDGE + 1;

/// A line where a bound is needed.
#[derive(Drop)]
pub enum BoundHead {
    /// The prices of the colours.
    Prices(Vec<i64>),
    /// A colour and some of the edges into it.
    Split(u64, Vec<u64>),
}

/// The line that begins a bound under so many splits.
pub fn bound_head(alloc: Global, under: u32, bytes: &[u8]) -> Result<(BoundHead, &[u8]), Stop<'_>>
    ensures taken { Takes (need_bound under) (bound_head_line under) bytes.now result }
    ensures small { IfOk result (λ both. IsSmallBound both.0) }
    ensures open { IfOk result (λ both. IsOpen under both.0) }
{
    a_line_has_one_spelling();
    let Some((line, rest)) = next_line(bytes) else {
        return Err(Stop::End);
    };
    let Some(head) = bound_line(alloc, line)? else {
        return Err(Stop::Bad(bytes));
    };
    if !is_bound(&head) {
        return Err(Stop::Big(bytes));
    }
    if !is_open(under, &head) {
        return Err(Stop::Deep(bytes));
    }
    Ok((head, rest))
}

/// The line that begins a bound, its numbers of any size.
fn bound_line(alloc: Global, line: &[u8]) -> Result<Option<BoundHead>, AllocError>
    ensures { (above : ℕ) → IfOk result (λ read. option_map (bound_head_line above) read
        ≡ line_at (need_bound above) line.now) }
{
    if let Some(prices) = line_forms::prices(alloc, line)? {
        return Ok(Some(BoundHead::Prices(prices)));
    }
    match line_forms::split(alloc, line)? {
        Some((colour, edges)) => Ok(Some(BoundHead::Split(colour, edges))),
        None => Ok(None),
    }
}

/// Whether the numbers of a bound's line are in their ranges.
fn is_bound(head: &BoundHead) -> bool
    ensures exactly { (above : ℕ) → result ≡ spec.in_range (bound_head_line above head.now) }
    ensures small { IsTrue result → IsSmallBound head.now }
{
    match head {
        BoundHead::Prices(prices) => are_potentials(prices),
        BoundHead::Split(colour, edges) => {
            is_within(*colour, 0, GREATEST_ROWS) && are_edges(edges)
        }
    }
}

/// Whether the edges of a split, and how many they are, are in their ranges.
fn are_edges(edges: &[u64]) -> bool
    ensures exactly { result
        ≡ spec.is_field_in_range (spec.some_numbers 1 spec.greatest_edges spec.greatest_edge
        (map (λ edge. pos edge) edges.now)) }
    ensures small { IsTrue result → All (λ edge. edge < 2 ^ 32) edges.now }
{
    edges.len() as u64 <= GREATEST_EDGES && are_within(edges, GREATEST_EDGE)
}

/// Whether fewer splits stand above a bound's line than may.
fn is_open(under: u32, head: &BoundHead) -> bool
    ensures exactly { result ≡ spec.is_shallow (bound_head_line under head.now) }
    ensures open { IsTrue result → IsOpen under head.now }
{
    match head {
        BoundHead::Prices(_) => true,
        BoundHead::Split(_, _) => under < GREATEST_DEPTH,
    }
}

/// The line of potentials.
pub fn potentials_line(alloc: Global, bytes: &[u8]) -> Result<(Vec<i64>, &[u8]), Stop<'_>>
    ensures taken { Takes need_potentials (λ potentials. spec.potentials_line potentials.items) bytes.now result }
    ensures numbers { IfOk result (λ both. AreNear both.0.items) }
{
    take_line!(bytes, line => line_forms::potentials(alloc, line)?, potentials => potentials,
        if are_potentials(&potentials))
}

/// Whether potentials, or prices, and how many they are, are in their ranges.
fn are_potentials(numbers: &[i64]) -> bool
    ensures exactly { result ≡ spec.in_range (spec.potentials_line numbers.now) }
    ensures numbers { IsTrue result → AreNear numbers.now }
{
    numbers.len() as u64 <= GREATEST_ROWS && are_signed_within(numbers, GREATEST_NUMBER)
}
