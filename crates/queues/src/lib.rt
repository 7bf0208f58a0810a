// First-in first-out queues of cells, one for each pair, over the scheduler on tables.
#![tactic(auto)]

mod moving;
mod parting;
mod serving;

pub use serving::slot;
