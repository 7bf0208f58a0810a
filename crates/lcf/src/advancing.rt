// Rule 7.
ghost use Rattle.std.specs.Prelude.{◌≡◌, ◌+◌, ◌%◌, ◌<◌};
ghost use Rattle.lcf.specs.Advance.{advance};

use ports::{Initiator, Orderly, State, Target};

// The port after x of n ports: 0 after the last. No division.
fn following(x: usize, n: usize) -> usize
    requires { x < n }
    ensures { result ≡ (x + 1) % n }
{
    let next = x + 1;
    if next < n { next } else { 0 }
}

pub fn advance(shelf: Orderly) -> State
    ensures { result ≡ advance shelf.state }
{
    let state = shelf.state;
    let n = state.ports;
    let i = following(state.initiator.0, n);
    let j = if i == 0 {
        following(state.target.0, n)
    } else {
        state.target.0
    };
    State {
        initiator: Initiator(i),
        target: Target(j),
        due: std::num::wrapping_add_u32(state.due, 1),
        ..state
    }
}
