//! A bound written, line by line.
ghost use Rattle.std.specs.Prelude.{◌≡◌, ◌++◌, [], ◌∷◌, ℕ, OnOk, codes, decimal};
ghost use Rattle.std.specs.List.{flat_map};
ghost use Rattle.tree_certificate.specs.BoundView.{bound_value};
ghost use Rattle.tree_document.specs.Document.{bound_lines, price_lines, text_of};
ghost use Rattle.tree_document.specs.Line as spec;

use crate::writer::{push_number, push_numbers};
use std::alloc::AllocError;
use tree_certificate::{Bound, PriceCert};

/// Appends the lines of a bound, which stands under however many splits.
pub fn push_bound(text: &mut Vec<u8>, bound: &Bound) -> Result<(), AllocError>
    ensures { (above : ℕ) → OnOk result
        (text.new.items ≡ text.old.items ++ text_of (bound_lines above (bound_value bound.now))) }
{
    match bound {
        Bound::Priced(cert) => push_prices(text, cert)?,
        Bound::Split(colour, part, first, second) => {
            push_split(text, *colour, part.as_slice())?;
            push_bound(text, first.get())?;
            push_bound(text, second.get())?;
        }
    }
    Ok(())
}

/// Appends the lines of prices and potentials.
fn push_prices(text: &mut Vec<u8>, cert: &PriceCert) -> Result<(), AllocError>
    ensures { OnOk result (text.new.items ≡ text.old.items ++ text_of (price_lines cert.now)) }
{
    text.extend_from_slice(b"prices")?;
    push_numbers(text, cert.prices())?;
    text.extend_from_slice(b"\npotentials")?;
    push_numbers(text, cert.potentials())?;
    text.push(b'\n')?;
    Ok(())
}

/// Appends the line of a split.
fn push_split(text: &mut Vec<u8>, colour: u16, part: &[u32]) -> Result<(), AllocError>
    ensures { (above : ℕ) → OnOk result
        (text.new.items ≡ text.old.items ++ text_of (spec.split_line above colour part.now ∷ [])) }
{
    text.extend_from_slice(b"split")?;
    push_number(text, u64::from(colour))?;
    push_edges(text, part)?;
    text.push(b'\n')?;
    Ok(())
}

/// Appends edges, each with a space before it.
fn push_edges(text: &mut Vec<u8>, edges: &[u32]) -> Result<(), AllocError>
    ensures { OnOk result (text.new.items ≡ text.old.items ++ flat_map (λ edge. codes " " ++ decimal edge) edges.now) }
{
    for edge in edges {
        push_number(text, u64::from(*edge))?;
    }
    Ok(())
}
