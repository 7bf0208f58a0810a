// What a slot that is served gives.
use crate::state::{State, Table};

// What it connects, and the rounds that it took.
#[derive(Clone, Copy)]
pub struct Matched {
    pub rounds: u8,
    pub sets: Table,
}

// And the next state.
#[derive(Clone, Copy)]
pub struct Served {
    pub state: State,
    pub matched: Matched,
}
