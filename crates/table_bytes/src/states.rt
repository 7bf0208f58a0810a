// A state as nine bytes.
ghost use Rattle.std.specs.Prelude.{◌≡◌, ◌≤◌, length};
ghost use Rattle.table_bytes.specs.State.{state_len, state_of, state_in, state_bytes};

use ports::{Initiator, State, Target};

pub const STATE_LEN: usize = 9;

// No `From`, which could not ask for so many bytes.
fn state_of(bytes: &[u8]) -> State
    requires { state_len ≤ length bytes.now }
    ensures { result ≡ state_of bytes.now }
{
    State {
        ports: usize::from(bytes[0]),
        initiator: Initiator(usize::from(bytes[1])),
        target: Target(usize::from(bytes[2])),
        due: words::of_four(bytes[3], bytes[4], bytes[5], bytes[6]),
        owners: words::of_two(bytes[7], bytes[8]),
    }
}

// The state at the front of the bytes; one of zeros where they are too few, as `state_in` of specs/, which theorems speak of.
pub fn state_in(bytes: &[u8]) -> State
    ensures { result ≡ state_in bytes.now }
{
    if bytes.len() < STATE_LEN {
        return State {
            ports: 0,
            initiator: Initiator(0),
            target: Target(0),
            due: 0,
            owners: 0,
        };
    }
    state_of(bytes)
}

// Byte by byte: the parts copied to their places take more lines. A count above 255 keeps its low byte, as in specs/.
pub fn state_bytes(state: State) -> [u8; STATE_LEN]
    ensures { result ≡ state_bytes state }
{
    let initiator = state.initiator;
    let target = state.target;
    let due = words::four_bytes(state.due);
    let owners = words::two_bytes(state.owners);
    [
        (state.ports % 256) as u8,
        (initiator.0 % 256) as u8,
        (target.0 % 256) as u8,
        due[0],
        due[1],
        due[2],
        due[3],
        owners[0],
        owners[1],
    ]
}
