// The ports of a shelf: its state, its tables, the modes of a slot, and the numbers 1 to 5.
#![tactic(auto)]

mod due;
mod many;
mod operators;
mod orderly;
mod served;
mod state;
mod tables;

pub use due::check_due;
pub use many::wrong_ports;
pub use orderly::Orderly;
pub use served::{Matched, Served};
pub use state::{Initiator, Mode, Moved, Set, State, Table, Target};
pub use tables::{at_most, within};
