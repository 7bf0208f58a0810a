// The records of the queues: an entry for each cell of the pool, in lent words.
#![tactic(auto)]

mod entry;
mod making;
mod marks;
mod order;
mod records;

pub use entry::Entry;
pub use making::new_queues;
pub use records::{CELL_LEN, HEAD_LEN, MOST_CELLS, Records};
