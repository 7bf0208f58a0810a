// The slot on frames: rules 1 to 7 of document 01, from bytes to bytes.
#![tactic(auto)]

mod asked;
mod by_value;
mod grants;
mod hosts;

pub use asked::sets_asked;
pub use by_value::{step, unanswered};
