//! Whether certificates hold: a checker that knows no way to find trees.
#![tactic(auto)]

mod bound;
mod checking;
mod colours;
mod gains;
mod low;
mod needed;
mod parts;
mod prices;
mod sides;
mod table;
mod verdict;
mod vertex;

pub use checking::check_cert;
pub use prices::{check_prices, total_of};
pub use sides::{give_back, keep_only, put_part, take_part};
pub use verdict::Verdict;
