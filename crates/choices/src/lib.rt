// What rules 3 to 6 share: the choice and its rotation, sets as words, and how a pair is joined.
#![tactic(auto)]

mod choice;
mod join;
mod pair;
mod rotation;
mod sets;
mod work;

pub use choice::choose;
pub use join::{clear_columns, join_pair};
pub use pair::{Pair, pair_at};
pub use rotation::{place_of, turned};
pub use sets::{Counts, any_live, column, gather, sizes};
pub use work::{Run, Work};
