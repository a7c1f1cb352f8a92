//! The element table.
ghost use Rattle.std.specs.Prelude.{◌≡◌, ◌≤◌, ◌<◌, ◌*◌, [], length, pos, slice_index, slice_index_or, IfSome};
ghost use Rattle.std.specs.Option.{is_some};
ghost use Rattle.element_table.specs.Elements.{element_count, greatest_valence, heaviest_atom, masses, place_of};
ghost use Rattle.element_table.specs.Elements.{symbols, valences};
ghost use Rattle.element_table.specs.FormulaReading.{is_known};
ghost use Rattle.element_table.specs.Rule.{IsNearZero, bond_coefficients};
ghost use Rattle.element_table.specs.Window.{greatest_half_width};

/// The elements that a formula may hold, each at its place: the symbol, the mass of the lightest stable isotope in
/// units of 10^-7 Da, and the number of bonds that it forms.
pub const ELEMENTS: [(&str, u64, u8); 11] = [
    ("H", 10_078_250, 1),
    ("C", 120_000_000, 4),
    ("N", 140_030_740, 3),
    ("O", 159_949_146, 2),
    ("P", 309_737_620, 3),
    ("S", 319_720_712, 2),
    ("F", 189_984_032, 1),
    ("Cl", 349_688_527, 1),
    ("Br", 789_183_376, 1),
    ("I", 1_269_044_719, 1),
    ("Si", 279_769_265, 4),
];

/// How many counts a formula has. The places past the table's elements are free.
pub const FORMULA_PLACES: usize = 16;

/// The greatest count of an element in a formula.
pub const GREATEST_COUNT: u16 = 1_999;

/// The mass of an atom of the element at a place, in units of 10^-7 Da: more than twice the greatest half-width of a
/// window, and no more than the heaviest atom's.
#[inline]
pub fn mass_at(place: usize) -> u64
    requires { place < element_count }
    ensures mass { result ≡ slice_index masses place }
    ensures heavy { 2 * greatest_half_width < result }
    ensures light { result ≤ heaviest_atom }
{
    ELEMENTS[place].1
}

/// The symbol of the element at a place, of one byte or two.
pub fn symbol_at(place: usize) -> &'static str
    requires { place < element_count }
    ensures symbol { result.now ≡ slice_index_or symbols place [] }
    ensures some { 1 ≤ length result.now }
    ensures short { length result.now ≤ 2 }
{
    ELEMENTS[place].0
}

/// How many bonds the element at a place forms.
#[inline]
pub fn valence_at(place: usize) -> u8
    requires { place < element_count }
    ensures valence { result ≡ slice_index valences place }
    ensures some { 1 ≤ result }
    ensures few { result ≤ greatest_valence }
{
    ELEMENTS[place].2
}

/// What an atom of the element at a place adds to twice the number of rings and double bonds.
#[inline]
pub fn bond_number_at(place: usize) -> i32
    requires { place < element_count }
    ensures number { result ≡ slice_index_or bond_coefficients place (pos 0) }
    ensures near { IsNearZero 2 result }
{
    i32::from(valence_at(place)) - 2
}

/// The place of the element with this symbol; none where the table does not have it.
pub fn place_of_symbol(symbol: &[u8]) -> Option<usize>
    ensures place { result ≡ place_of symbol.now }
    ensures known { is_some result ≡ is_known symbol.now }
    ensures within { IfSome result (λ place. place < element_count) }
{
    for place in 0..ELEMENTS.len() {
        if symbol_at(place).as_bytes() == symbol {
            return Some(place);
        }
    }
    None
}
