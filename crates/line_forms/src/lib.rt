//! The lines of documents by their forms: one function for each form, from the bytes of a line to what it holds.
#![tactic(auto)]

mod lines;

pub use lines::{
    RowFields, charge, clean, done, entries, formula, header, list, lists, no_precursor,
    potentials, prices, range, refused, row, spectrum, split, table, table_row, too_large,
    too_many, tree,
};
