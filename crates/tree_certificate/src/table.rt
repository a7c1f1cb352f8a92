//! A certificate that is a table.
ghost use Rattle.std.specs.Prelude.{◌≡◌, ◌↔◌, map, IsSome, IfSome};
ghost use Rattle.std.specs.List.{list_all};
ghost use Rattle.tree_certificate.specs.Number.{AreNumbers, greatest_number, is_near};

use std::marker::Model;

/// The numbers of a certificate are at most so far from 0.
pub const GREATEST_NUMBER: u64 = 1_000_000_000_000_000;

/// A table is of a graph with at most so many colours.
pub const GREATEST_COLOURS: u32 = 12;

/// A table of whole numbers within 10^15 of 0: a row for each vertex of a graph, and in it a number for each set of the
/// colours that are greater than the vertex's.
#[derive(Debug, Drop)]
pub struct TableCert {
    rows: Vec<Vec<i64>>,
}

impl Model for TableCert {
    ghost use Rattle.std.specs.Prelude.{List, ℤ, map};
    ghost use Rattle.tree_certificate.specs.Number.{AreNumbers};

    ghost Value = { List (List ℤ) };

    ghost view = { λ cert. map (λ row. row.items) cert.rows.items };

    ghost invariant = { λ cert. AreNumbers (map (λ row. row.items) cert.rows.items) };
}

impl TableCert {
    /// The table of these rows, and none exactly where a number is more than 10^15 away from 0.
    pub fn new(rows: Vec<Vec<i64>>) -> Option<TableCert>
        ensures some { IsSome result ↔ AreNumbers (map (λ row. row.items) rows.items) }
        ensures rows { IfSome result (λ cert. cert ≡ map (λ row. row.items) rows.items) }
    {
        if are_numbers(&rows) {
            Some(TableCert { rows })
        } else {
            None
        }
    }

    /// The table of rows that may stand in a certificate.
    pub fn of_rows(rows: Vec<Vec<i64>>) -> TableCert
        requires { AreNumbers (map (λ row. row.items) rows.items) }
        ensures { result ≡ map (λ row. row.items) rows.items }
    {
        TableCert { rows }
    }

    /// The rows, by vertex.
    pub fn rows(&self) -> &[Vec<i64>]
        ensures rows { map (λ row. row.items) result.now ≡ self.now }
        ensures numbers { AreNumbers self.now }
    {
        &self.rows
    }
}

/// Whether all numbers of the rows may stand in a certificate.
fn are_numbers(rows: &[Vec<i64>]) -> bool
    ensures { result ≡ list_all (λ row. list_all (is_near greatest_number) row.items) rows.now }
{
    rows.iter().all(|row| are_near_zero(row.as_slice()))
}

/// Whether all of some numbers may stand in a certificate.
pub(crate) fn are_near_zero(numbers: &[i64]) -> bool
    ensures { result ≡ list_all (is_near greatest_number) numbers.now }
{
    numbers.iter().all(|number| is_near_zero(*number))
}

/// Whether a number may stand in a certificate.
fn is_near_zero(number: i64) -> bool
    ensures { result ≡ is_near greatest_number number }
{
    number.unsigned_abs() <= GREATEST_NUMBER
}
