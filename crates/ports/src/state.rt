// The state of a shelf, and the mode of a slot.
ghost use Rattle.std.specs.Prelude.{◌≡◌, replicate};
ghost use Rattle.refusals.specs.Numbers.{answer_of};
ghost use Rattle.frames.specs.Part.{most_ports};
ghost use Rattle.ports.specs.Ready.{at_first, fresh};
ghost use Rattle.ports.specs.Modes.{mode_of};

use crate::many::wrong_ports;
use crate::operators::{any_above, owners_of};
use refusals::Refusal;

// A set of ports, bit p for port p; and a row of such sets for each port.
pub type Set = u16;

pub type Table = [Set; State::MOST];

// A word of twice as many bits, in which a set can be moved.
pub type Moved = u32;

// The report's requester index.
#[derive(Clone, Copy)]
pub struct Initiator(pub usize);

// The report's resource index.
#[derive(Clone, Copy)]
pub struct Target(pub usize);

// The ports n, the offsets I and J, the slot number due, and the ports of operator 1; the others are operator 0's.
#[derive(Clone, Copy)]
pub struct State {
    pub ports: usize,
    pub initiator: Initiator,
    pub target: Target,
    pub due: u32,
    pub owners: Set,
}

#[derive(Clone, Copy)]
pub enum Mode {
    Central,
    // With its round limit.
    Distributed(u32),
    // All diagonal positions before others.
    Diagonal,
}

// The mode that a number names.
impl From<u32> for Mode {
    ghost from_gives = { λ mode m. m ≡ mode_of most_ports mode };

    fn from(mode: u32) -> Mode {
        if mode == 0 {
            return Mode::Central;
        }
        if mode == State::MOST as u32 + 1 {
            return Mode::Diagonal;
        }
        Mode::Distributed(mode)
    }
}

fn at_first(ports: usize, due: u32, owners: Set) -> State
    ensures { result ≡ at_first ports due owners }
{
    State {
        ports,
        initiator: Initiator(0),
        target: Target(0),
        due,
        owners,
    }
}

impl State {
    // The greatest port count.
    pub const MOST: usize = frames::Ports::MOST;

    // With an operator number for each port, of which those at or above the ports are ignored.
    pub fn fresh(ports: usize, due: u32, operators: [u8; State::MOST]) -> Result<State, Refusal>
        ensures { answer_of (at_first 0 0 0) result ≡ fresh most_ports ports due operators }
    {
        if wrong_ports(ports) {
            return Err(Refusal::BadPorts);
        }
        let given = &operators[..ports];
        if any_above(given) {
            return Err(Refusal::BadOperator);
        }
        Ok(at_first(ports, due, owners_of(given)))
    }

    pub fn empty_table() -> Table
        ensures { result ≡ replicate most_ports 0 }
    {
        [0; State::MOST]
    }
}
