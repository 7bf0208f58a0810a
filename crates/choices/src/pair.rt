// The pair that a slot favours at each of its steps.
ghost use Rattle.std.specs.Prelude.{◌≡◌, ◌<◌};
ghost use Rattle.choices.specs.Choice.{place};

use crate::rotation::Rotation;
use ports::{Initiator, Orderly, Target};

#[derive(Clone, Copy)]
pub struct Pair {
    pub initiator: Initiator,
    pub target: Target,
}

// Both offsets moved on by k, of which whole rounds make no difference.
pub fn pair_at(shelf: Orderly, k: usize) -> Pair
    ensures row { (result.initiator.0 ≡ place shelf.state.ports shelf.state.initiator.0 k) × (result.initiator.0 < shelf.state.ports) }
    ensures column { (result.target.0 ≡ place shelf.state.ports shelf.state.target.0 k) × (result.target.0 < shelf.state.ports) }
{
    let n = shelf.state.ports;
    let turn = if k < n { k } else { k % n };
    let initiators = Rotation {
        n,
        from: shelf.state.initiator.0,
    };
    let targets = Rotation {
        n,
        from: shelf.state.target.0,
    };
    Pair {
        initiator: Initiator(initiators.place(turn)),
        target: Target(targets.place(turn)),
    }
}
