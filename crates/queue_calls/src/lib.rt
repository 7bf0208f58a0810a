// The C form: the queues of the compact shelf. queue_calls_c gives them to C.
#![tactic(auto)]

mod record_calls;
mod slot_call;

pub use record_calls::{bellacush_add_cell, bellacush_count_cells, bellacush_new_queues};
pub use slot_call::bellacush_queue_slot;
