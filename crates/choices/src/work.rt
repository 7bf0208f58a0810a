// What a slot works on.
use ports::Table;

// The live requests and the targets held, a row for each initiator. Two tables, for the columns read the one without the other.
#[derive(Clone, Copy)]
pub struct Work {
    pub live: Table,
    pub held: Table,
}

// And the rounds so far.
#[derive(Clone, Copy)]
pub struct Run {
    pub work: Work,
    pub rounds: u8,
}
