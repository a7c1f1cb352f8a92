//! A round of the filling: one more mass is added to the least sums of each residue class. The residues that follow one
//! another by steps of that mass make circles, and each circle is gone round from where it is met first.
ghost use Rattle.std.specs.Prelude.{◌≡◌, ◌≤◌, ◌<◌, ◌+◌, ◌*◌, ◌%◌, ◌^◌, ℕ, List, Bool, true, false, length, min, nat_lt};
ghost use Rattle.std.specs.Prelude.{slice_index, slice_index_or, slice_set};
ghost use Rattle.std.specs.List.{All};
ghost use Rattle.residue_table.specs.Least.{greatest_mass};
ghost use Rattle.residue_table.specs.inside.Entries.{nothing};
ghost use Rattle.residue_table.specs.inside.Rounds.{AreAdded, AreClosed, AreLow, Keeps};

/// Where a residue class has no sum, the entry is greater than any that has one.
pub(crate) const NOTHING: u64 = 1 << 62;

/// Adds one more mass to the masses whose least sums a row holds.
pub(crate) fn add_mass(row: &mut [u64], seen: &mut [bool], mass: u64)
    requires some { 0 < length row.old }
    requires few { length row.old ≤ greatest_mass }
    requires seen { length seen.old ≡ length row.old }
    requires mass { mass ≤ greatest_mass }
    requires low { AreLow row.old }
    ensures seen { length seen.new ≡ length seen.old }
    ensures added { AreAdded mass row.old row.new }
{
    for flag in seen.iter_mut() {
        *flag = false;
    }
    let step = (mass % row.len() as u64) as usize;
    for start in 0..row.len() {
        go_round(row, seen, start, step, mass);
    }
}

/// Goes round the residues that follow a start, unless they were seen, and then on as long as an entry is lowered.
fn go_round(row: &mut [u64], seen: &mut [bool], start: usize, step: usize, mass: u64)
    requires few { length row.old ≤ greatest_mass }
    requires seen { length seen.old ≡ length row.old }
    requires start { start < length row.old }
    requires mass { mass ≤ greatest_mass }
    requires step { step ≡ mass % length row.old }
    requires low { AreLow row.old }
    requires closed { AreClosed mass row.old seen.old }
    ensures keeps { Keeps mass row.old seen.old row.new seen.new }
    ensures closed { AreClosed mass row.new seen.new }
    ensures start { slice_index_or seen.new start false ≡ true }
{
    let mut residue = start;
    let mut lowered = false;
    while lowered || !seen[residue] {
        seen[residue] = true;
        let next = next_residue(residue, step, row.len());
        lowered = lower(row, residue, next, mass);
        residue = next;
    }
}

/// The residue that follows another by a step.
#[inline]
fn next_residue(residue: usize, step: usize, first: usize) -> usize
    requires residue { residue < first }
    requires step { step < first }
    requires small { first ≤ greatest_mass }
    ensures next { result ≡ (residue + step) % first }
    ensures within { result < first }
{
    let next = residue + step;
    if next < first { next } else { next - first }
}

/// Lowers an entry to another one with the mass, where that is less, and answers whether it was.
#[inline]
fn lower(row: &mut [u64], from: usize, to: usize, mass: u64) -> bool
    requires from { from < length row.old }
    requires to { to < length row.old }
    requires mass { mass ≤ greatest_mass }
    requires low { AreLow row.old }
    ensures row { row.new ≡ slice_set row.old to (min (slice_index row.old to) (slice_index row.old from + mass)) }
    ensures lowered { result ≡ nat_lt (slice_index row.old from + mass) (slice_index row.old to) }
{
    let sum = row[from] + mass;
    let lowered = sum < row[to];
    if lowered {
        row[to] = sum;
    }
    lowered
}
