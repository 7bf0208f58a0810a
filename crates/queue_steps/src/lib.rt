// The scheduler's slot over the queues: which pairs ask, and what the scheduler answers.
#![tactic(auto)]

mod asking;
mod stepping;

pub use stepping::step;
