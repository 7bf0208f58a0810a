// Rule 5 of document 01, the central form, and the diagonal that the diagonal-first form takes before it.
#![tactic(auto)]

mod central;
mod diagonal;

pub use central::serve_targets;
pub use diagonal::take_diagonal;
