// Rule 5, the central form.
ghost use Rattle.std.specs.Prelude.{◌≡◌, ◌<◌};
ghost use Rattle.frames.specs.Part.{most_ports};
ghost use Rattle.ports.specs.Due.{orderly};
ghost use Rattle.central.specs.Central.{winner, serve, central};

use choices::{Work, choose, column, join_pair, pair_at, sizes};
use ports::{Initiator, Orderly, State, Table, Target};
use words::holds;

fn winner(shelf: Orderly, live: Table, t: Target, a: Initiator) -> Initiator
    requires { (t.0 < shelf.state.ports) × (a.0 < shelf.state.ports) }
    ensures { (result.0 ≡ winner live shelf.state.ports t.0 a.0) × (result.0 < shelf.state.ports) }
{
    if holds(live[a.0], t.0) {
        a
    } else {
        let n = shelf.state.ports;
        Initiator(choose(column(&live, n, t), &sizes(&live), n, a.0))
    }
}

fn serve(shelf: Orderly, k: usize, work: Work) -> Work
    requires { k < shelf.state.ports }
    ensures { result ≡ serve shelf.state k work }
{
    let favoured = pair_at(shelf, k);
    let t = favoured.target;
    let i = winner(shelf, work.live, t, favoured.initiator);
    if holds(work.live[i.0], t.0) {
        join_pair(work, i, t)
    } else {
        work
    }
}

#[tactic(auto, using(laws::proofs::Loops::again, laws::proofs::Loops::done, laws::proofs::Loops::none))]
fn served(shelf: Orderly, work: Work) -> Work
    ensures { result ≡ central shelf.state work shelf.state.ports }
{
    let mut now = work;
    for k in 0..shelf.state.ports {
        now = serve(shelf, k, now);
    }
    now
}

// For every state: on one that numbers 1 or 2 decline, as a single port.
pub fn serve_targets(state: State, work: Work) -> Work
    ensures { result ≡ central (orderly most_ports state) work (orderly most_ports state).ports }
{
    served(Orderly::of(state), work)
}
