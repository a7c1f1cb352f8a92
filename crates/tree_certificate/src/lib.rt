//! Certificates that no tree of a graph scores more than an upper bound: what they are, and what they have to hold.
#![tactic(auto)]

mod bound;
mod cert;
mod cert_laws;
mod place;
mod prices;
mod table;

pub use bound::{Bound, GREATEST_DEPTH, depth, splits};
pub use cert::Cert;
pub use cert_laws::{
    a_bound_that_holds_bounds_every_tree, the_cap_bounds_every_tree, what_holds_bounds_every_tree,
    what_prices_hold_bounds_every_tree,
};
pub use place::Place;
pub use prices::PriceCert;
pub use table::{GREATEST_COLOURS, GREATEST_NUMBER, TableCert};
