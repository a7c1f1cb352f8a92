//! Upper bounds on the scores of colourful trees by prices of the colours and potentials of the vertices.
#![tactic(auto)]

mod exact;
mod improving;
mod offers;
mod packed;
mod rounds;
mod starting;
mod total;
mod unpriced;

pub use improving::improve;
pub use total::bound_of;
pub use unpriced::plain;
