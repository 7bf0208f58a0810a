// The ledger of a shelf: for each pair, how often it was asked, connected, fresh and withdrawn, and whether its request is open
// (document 02, item 1). By value, and in lent words.
#![tactic(auto)]

mod book;
mod counts;
mod events;
mod lent;
mod pair;

pub use book::{Figures, Ledger, feed, figures_of};
pub use lent::{feed_lent, figures_lent};
