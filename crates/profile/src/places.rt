//! The places of a profile text, in the order of the walk.
ghost use Rattle.std.specs.Prelude.{◌≡◌, ◌++◌, [], IfOk, OnOk, option_map, codes, decimal};
ghost use Rattle.profile.specs.Losses.{is_free, key_formula, taken_by, taken_with};
ghost use Rattle.profile.specs.Places as spec;
ghost use Rattle.profile.specs.Form.{loss, taken_at};
ghost use Rattle.profile.specs.inside.Searched.{known_seen, losses_seen, one_place, places_seen};
ghost use Rattle.profile.specs.inside.Seen.{form_seen};
ghost use Rattle.profile.specs.Table as said;
ghost use Rattle.toml.specs.View.{view, array_view, table_view};

use crate::form::Form;
use crate::table::table_at;
use element_table::{ELEMENTS, Formula, read_formula};
use indexmap::IndexSet;
use std::alloc::{AllocError, Global};
use toml::value::Array;
use toml::{Table, Value};

/// A value, what it may be, and the name of its place.
#[derive(Drop)]
pub(crate) struct Place<'a> {
    pub(crate) name: Vec<u8>,
    pub(crate) form: Form,
    pub(crate) value: &'a Value,
}

/// What is known of the whole table while its places are laid out.
#[derive(Drop)]
pub(crate) struct Walk<'a> {
    /// The elements whose symbols its keys may use.
    elements: &'a [(&'static str, u64, u8)],
    /// The table of the losses that it names.
    named: Option<&'a Table>,
}

/// The places of a table.
pub(crate) fn lay_out<'a>(alloc: Global, table: &'a Table) -> Result<Vec<Place<'a>>, AllocError>
    ensures { IfOk result (λ places. places_seen places.items ≡ spec.places_of (table_view table.now)) }
{
    let walk = Walk {
        elements: &ELEMENTS,
        named: named_losses(table),
    };
    let mut places = Vec::new(alloc);
    add_keys(alloc, &walk, table, Form::Whole, b"", &mut places)?;
    Ok(places)
}

/// The table of the losses that a text names.
fn named_losses<'a>(table: &'a Table) -> Option<&'a Table>
    ensures { losses_seen result
        ≡ taken_by [] (said.table_at (said.table_at (table_view table.now) (codes "scores")) (codes "named")) }
{
    match table_at(table, "scores") {
        Some(scores) => table_at(scores, "named"),
        None => None,
    }
}

/// Adds the keys of a table of some form, each with all that stands under it.
#[cycle(walk)]
fn add_keys<'a>(
    alloc: Global,
    walk: &Walk<'a>,
    table: &'a Table,
    form: Form,
    before: &[u8],
    places: &mut Vec<Place<'a>>,
) -> Result<(), AllocError>
    ensures { OnOk result (places_seen places.new.items ≡ places_seen places.old.items
        ++ spec.places_of_keys (known_seen walk.now) (form_seen form) before.now (table_view table.now)) }
{
    'keys: for (key, value) in table.iter() {
        let own = form.at(walk.elements, key.as_str());
        let under = add_place(alloc, before, key.as_bytes(), own, value, places)?;
        add_under(alloc, walk, value, own, &under, places)?;
    }
    Ok(())
}

/// Adds the items of an array of some form, each with all that stands under it.
#[cycle(walk)]
fn add_items<'a>(
    alloc: Global,
    walk: &Walk<'a>,
    items: &'a Array,
    form: Form,
    before: &[u8],
    places: &mut Vec<Place<'a>>,
) -> Result<(), AllocError>
    ensures { OnOk result (places_seen places.new.items ≡ places_seen places.old.items
        ++ spec.places_of_items (known_seen walk.now) (form_seen form) before.now 0 (array_view items.now)) }
{
    'items: for (number, item) in items.iter().enumerate() {
        let own = form.of_item(number);
        let under = add_numbered(alloc, before, number, own, item, places)?;
        add_under(alloc, walk, item, own, &under, places)?;
    }
    Ok(())
}

/// Adds all that stands under a value of some form.
#[cycle(walk)]
fn add_under<'a>(
    alloc: Global,
    walk: &Walk<'a>,
    value: &'a Value,
    form: Form,
    before: &[u8],
    places: &mut Vec<Place<'a>>,
) -> Result<(), AllocError>
    ensures { OnOk result (places_seen places.new.items ≡ places_seen places.old.items
        ++ spec.places_under (known_seen walk.now) (form_seen form) before.now (view value.now)) }
{
    match value {
        Value::Table(table) => {
            if form.has_keys() {
                add_keys(alloc, walk, table, form, before, places)
            } else {
                add_loss_table(alloc, walk, table, form, before, places)
            }
        }
        Value::Array(items) => {
            if form.has_items() {
                add_items(alloc, walk, items, form, before, places)
            } else {
                Ok(())
            }
        }
        _ => Ok(()),
    }
}

/// Adds the place of an item of an array, and gives what stands before the names of what is under it.
fn add_numbered<'a>(
    alloc: Global,
    before: &[u8],
    number: usize,
    form: Form,
    value: &'a Value,
    places: &mut Vec<Place<'a>>,
) -> Result<Vec<u8>, AllocError>
    ensures under { IfOk result (λ under. under.items ≡ spec.point_after (before.now ++ decimal number)) }
    ensures added { OnOk result (places_seen places.new.items ≡ places_seen places.old.items
        ++ one_place (before.now ++ decimal number) (form_seen form) (view value.now)) }
{
    let step = number.to_string(alloc)?;
    add_place(alloc, before, step.as_bytes(), form, value, places)
}

/// Adds a place, and gives what stands before the names of what is under it.
fn add_place<'a>(
    alloc: Global,
    before: &[u8],
    step: &[u8],
    form: Form,
    value: &'a Value,
    places: &mut Vec<Place<'a>>,
) -> Result<Vec<u8>, AllocError>
    ensures under { IfOk result (λ under. under.items ≡ spec.point_after (before.now ++ step.now)) }
    ensures added { OnOk result (places_seen places.new.items ≡ places_seen places.old.items
        ++ one_place (before.now ++ step.now) (form_seen form) (view value.now)) }
{
    let name = joined(alloc, before, step)?;
    let under = with_point(alloc, &name)?;
    places.push(Place { name, form, value })?;
    Ok(under)
}

/// Adds the keys of a table of losses, where a table of this form is one.
fn add_loss_table<'a>(
    alloc: Global,
    walk: &Walk<'a>,
    table: &'a Table,
    form: Form,
    before: &[u8],
    places: &mut Vec<Place<'a>>,
) -> Result<(), AllocError>
    ensures { OnOk result (places_seen places.new.items ≡ places_seen places.old.items
        ++ spec.places_where_taken (taken_at (known_seen walk.now) (form_seen form)) before.now
        (table_view table.now)) }
{
    match taken_for(alloc, walk, form)? {
        Some(mut taken) => add_losses(alloc, table, &mut taken, before, places),
        None => Ok(()),
    }
}

/// Adds the keys of a table of losses, none of which may be one that is taken.
fn add_losses<'a>(
    alloc: Global,
    table: &'a Table,
    taken: &mut IndexSet<Formula>,
    before: &[u8],
    places: &mut Vec<Place<'a>>,
) -> Result<(), AllocError>
    ensures { OnOk result (places_seen places.new.items ≡ places_seen places.old.items
        ++ spec.places_of_losses taken.old.keys before.now (table_view table.now)) }
{
    for (key, value) in table.iter() {
        add_loss(alloc, key.as_str(), value, taken, before, places)?;
    }
    Ok(())
}

/// Adds the place of a loss, which is taken from then on.
fn add_loss<'a>(
    alloc: Global,
    key: &str,
    value: &'a Value,
    taken: &mut IndexSet<Formula>,
    before: &[u8],
    places: &mut Vec<Place<'a>>,
) -> Result<(), AllocError>
    ensures taken { OnOk result (taken.new.keys ≡ taken_with taken.old.keys (key_formula key.now)) }
    ensures added { OnOk result (places_seen places.new.items ≡ places_seen places.old.items
        ++ one_place (before.now ++ key.now) (loss (is_free taken.old.keys (key_formula key.now)))
        (view value.now)) }
{
    let form = Form::Loss(take(taken, key)?);
    let name = joined(alloc, before, key.as_bytes())?;
    places.push(Place { name, form, value })?;
    Ok(())
}

/// The losses that the keys of a table of this form may not give, where its keys are losses.
fn taken_for(
    alloc: Global,
    walk: &Walk<'_>,
    form: Form,
) -> Result<Option<IndexSet<Formula>>, AllocError>
    ensures { IfOk result (λ taken. option_map (λ set. set.keys) taken
        ≡ taken_at (known_seen walk.now) (form_seen form)) }
{
    match form {
        Form::NamedLosses => Ok(Some(IndexSet::new(alloc))),
        Form::ImplausibleLosses => Ok(Some(gathered(alloc, walk.named)?)),
        _ => Ok(None),
    }
}

/// The losses of a table that may be there.
fn gathered(alloc: Global, table: Option<&Table>) -> Result<IndexSet<Formula>, AllocError>
    ensures { IfOk result (λ taken. taken.keys ≡ losses_seen table.entry) }
{
    let mut taken = IndexSet::new(alloc);
    if let Some(table) = table {
        take_all(table, &mut taken)?;
    }
    Ok(taken)
}

/// Takes the losses of a table, in the order of its keys.
fn take_all(table: &Table, taken: &mut IndexSet<Formula>) -> Result<(), AllocError>
    ensures { OnOk result (taken.new.keys ≡ taken_by taken.old.keys (table_view table.now)) }
{
    for (key, _) in table.iter() {
        let _ = take(taken, key.as_str())?;
    }
    Ok(())
}

/// Takes the formula of a key, where it is one. Whether it is a loss that was free before.
fn take(taken: &mut IndexSet<Formula>, key: &str) -> Result<bool, AllocError>
    ensures free { IfOk result (λ was_free. was_free ≡ is_free taken.old.keys (key_formula key.now)) }
    ensures taken { OnOk result (taken.new.keys ≡ taken_with taken.old.keys (key_formula key.now)) }
{
    match read_formula(key.as_bytes()) {
        Ok(formula) => {
            let is_new = taken.insert(formula)?;
            Ok(is_new && formula != Formula::empty())
        }
        Err(_) => Ok(false),
    }
}

/// The name of a place.
fn joined(alloc: Global, before: &[u8], step: &[u8]) -> Result<Vec<u8>, AllocError>
    ensures { IfOk result (λ name. name.items ≡ before.now ++ step.now) }
{
    let mut name = Vec::from_slice(alloc, before)?;
    name.extend_from_slice(step)?;
    Ok(name)
}

/// The name of a place with a point, which stands before the names of what is under it.
fn with_point(alloc: Global, name: &[u8]) -> Result<Vec<u8>, AllocError>
    ensures { IfOk result (λ under. under.items ≡ spec.point_after name.now) }
{
    let mut under = Vec::from_slice(alloc, name)?;
    under.push(b'.')?;
    Ok(under)
}
