// The diagonal positions, which the diagonal-first form takes before others.
ghost use Rattle.std.specs.Prelude.{◌≡◌};
ghost use Rattle.frames.specs.Part.{most_ports};
ghost use Rattle.ports.specs.Due.{orderly};
ghost use Rattle.central.specs.Diagonal.{diagonal};

use choices::{Work, clear_columns, pair_at};
use ports::{Orderly, State};
use words::{holds, with};

// No two positions share a column, so the columns of the targets joined are cleared after the last, all at once.
fn taken(shelf: Orderly, work: Work) -> Work
    ensures { result ≡ diagonal shelf.state work shelf.state.ports }
{
    let mut live = work.live;
    let mut held = work.held;
    let mut gone = 0;
    for k in 0..shelf.state.ports {
        let pair = pair_at(shelf, k);
        let i = pair.initiator.0;
        let t = pair.target.0;
        if holds(live[i], t) {
            live[i] = 0;
            held[i] = with(held[i], t);
            gone = with(gone, t);
        }
    }
    Work {
        live: clear_columns(live, gone),
        held,
    }
}

// For every state: on one that numbers 1 or 2 decline, as a single port.
pub fn take_diagonal(state: State, work: Work) -> Work
    ensures { result ≡ diagonal (orderly most_ports state) work (orderly most_ports state).ports }
{
    taken(Orderly::of(state), work)
}
