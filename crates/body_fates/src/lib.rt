// What becomes of the bodies of a damaged trace, judged one by one.
#![tactic(auto)]

mod body;
mod judging;

pub use body::Fate;
pub use judging::Judged;
