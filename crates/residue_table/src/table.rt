//! The table of the least sums, for each number of first masses, and what it answers.
ghost use Rattle.std.specs.Prelude.{◌≡◌, ◌≤◌, ◌<◌, ◌*◌, ◌↔◌, ℕ, List, IfOk, IsTrue, length, slice_index, take};
ghost use Rattle.residue_table.specs.Least.{AreMasses, IsSum, Least, greatest_mass};
ghost use Rattle.residue_table.specs.inside.Entries.{AreEntries, IsEntry, IsRow};
ghost use Rattle.residue_table.specs.inside.Rounds.{AreLow};

use crate::rounds::{NOTHING, add_mass};
use std::alloc::{AllocError, Global};
use std::marker::Model;

/// For each number of first masses and each residue modulo the first mass, the least sum of these masses with that
/// residue, each mass taken any number of times.
#[derive(Drop)]
pub struct Table {
    masses: Vec<u64>,
    entries: Vec<u64>,
}

impl Model for Table {
    ghost use Rattle.std.specs.Prelude.{List, ℕ, length};
    ghost use Rattle.residue_table.specs.Least.{AreMasses};
    ghost use Rattle.residue_table.specs.inside.Entries.{AreEntries};

    ghost Value = { List ℕ };

    ghost view = { λ table. table.masses.items };

    ghost invariant = { λ table. AreMasses table.masses.items
        × AreEntries table.masses.items (length table.masses.items) table.entries.items };
}

impl Table {
    /// The table of 1 to 16 masses, each from 1 to 2,000,000. It is filled in rounds, a round for each mass after the
    /// first.
    pub fn build(alloc: Global, masses: &[u64]) -> Result<Table, AllocError>
        requires { AreMasses masses.now }
        ensures { IfOk result (λ table. table ≡ masses.now) }
    {
        let first = masses[0] as usize;
        let mut row = vec![in alloc; NOTHING; first]?;
        row[0] = 0;
        let mut seen = vec![in alloc; false; first]?;
        let entries = filled(alloc, masses, &mut row, &mut seen)?;
        let mut own = Vec::new(alloc);
        own.extend_from_slice(masses)?;
        Ok(Table {
            masses: own,
            entries,
        })
    }

    /// The least number with a residue modulo the first mass that is a sum of so many first masses, each taken any
    /// number of times; none where there is none.
    pub fn least(&self, residue: u64, places: usize) -> Option<u64>
        requires residue { residue < slice_index self.now 0 }
        requires some { 1 ≤ places }
        requires places { places ≤ length self.now }
        ensures { Least self.now residue places result }
    {
        let entry = self.entry(residue, places);
        (entry < NOTHING).then_some(entry)
    }

    /// Whether a number is a sum of so many first masses, each taken any number of times.
    pub fn can(&self, number: u64, places: usize) -> bool
        requires some { 1 ≤ places }
        requires places { places ≤ length self.now }
        ensures { IsTrue result ↔ IsSum (take places self.now) number }
    {
        let entry = self.entry(number % self.first(), places);
        entry < NOTHING && entry <= number
    }

    /// The first mass.
    fn first(&self) -> u64
        ensures first { result ≡ slice_index self.now 0 }
        ensures not_zero { 1 ≤ result }
        ensures small { result ≤ greatest_mass }
    {
        self.masses[0]
    }

    /// The entry of a residue and so many first masses.
    fn entry(&self, residue: u64, places: usize) -> u64
        requires residue { residue < slice_index self.now 0 }
        requires some { 1 ≤ places }
        requires places { places ≤ length self.now }
        ensures entry { IsEntry self.now residue places result }
        ensures masses { AreMasses self.now }
    {
        self.entries[(places - 1) * self.first() as usize + residue as usize]
    }
}

/// The rows of a table, of which the first is given: a round for each further mass.
fn filled(
    alloc: Global,
    masses: &[u64],
    row: &mut [u64],
    seen: &mut [bool],
) -> Result<Vec<u64>, AllocError>
    requires masses { AreMasses masses.now }
    requires row { IsRow masses.now 1 row.old }
    requires low { AreLow row.old }
    requires seen { length seen.old ≡ length row.old }
    ensures { IfOk result (λ entries. AreEntries masses.now (length masses.now) entries.items) }
{
    let mut entries = Vec::new(alloc);
    entries.extend_from_slice(row)?;
    for places in 1..masses.len() {
        add_mass(row, seen, masses[places]);
        entries.extend_from_slice(row)?;
    }
    Ok(entries)
}

#[cfg(test)]
mod tests {
    use super::Table;
    use std::test::Fail;

    #[test]
    fn least_sums_of_small_masses(rt: HostRuntime) -> Result<(), Fail> {
        let table = Table::build(rt.alloc(), &[5, 8, 9, 12])?;
        for (residue, least) in [(0, 0), (1, 16), (2, 12), (3, 8), (4, 9)] {
            assert!(rt; table.least(residue, 4) == Some(least), "at {residue}");
        }
        let table = Table::build(rt.alloc(), &[4, 6])?;
        for (residue, least) in [(0, Some(0)), (1, None), (2, Some(6)), (3, None)] {
            assert!(rt; table.least(residue, 2) == least, "at {residue}");
        }
        assert!(rt; !table.can(7, 2));
        assert!(rt; table.can(10, 2));
        Ok(())
    }
}
