// Cells are added to the queues, and counted.
#![tactic(auto)]

mod adding;
mod counting;
mod queue;

pub use adding::add;
pub use counting::count;
