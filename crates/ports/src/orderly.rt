// A state that can be served.
ghost use Rattle.std.specs.Prelude.{◌≡◌};
ghost use Rattle.frames.specs.Part.{most_ports};
ghost use Rattle.ports.specs.Ready.{Ready};
ghost use Rattle.ports.specs.Due.{orderly};

use crate::due::check_due;
use crate::state::{Initiator, Mode, State, Target};

#[derive(Clone, Copy)]
pub struct Orderly {
    pub state: State,
    pub ghost ready: { Ready most_ports state },
}

impl Orderly {
    // The state, or one of a single port: what is total on states can be served.
    #[tactic(auto, unfolding(crate::specs::Due::orderly))]
    pub fn of(state: State) -> Orderly
        ensures { result.state ≡ orderly most_ports state }
    {
        if check_due(state, state.due, Mode::Central).is_ok() {
            return Orderly { state };
        }
        Orderly {
            state: State {
                ports: 1,
                initiator: Initiator(0),
                target: Target(0),
                ..state
            },
        }
    }
}
