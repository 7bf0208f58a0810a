// Rules 3 and 4, the planned stage.
ghost use Rattle.std.specs.Prelude.{◌≡◌, ◌<◌};
ghost use Rattle.frames.specs.Part.{most_ports};
ghost use Rattle.ports.specs.Due.{orderly};
ghost use Rattle.planned.specs.Planned.{planner, give, planned, start};

use choices::{Work, any_live, choose, column, join_pair, turned};
use ports::{Initiator, Orderly, State, Table, Target, within};
use words::holds;

// Every claimant counts as equal, so the first in the rotation is chosen.
fn planner(shelf: Orderly, pre: Table, t: Target) -> Initiator
    requires { t.0 < shelf.state.ports }
    ensures { (result.0 ≡ planner shelf.state pre t.0) × (result.0 < shelf.state.ports) }
{
    let state = shelf.state;
    let from = turned(state.ports, state.initiator.0, t.0, state.target.0);
    let alike = [0; State::MOST];
    Initiator(choose(column(&pre, state.ports, t), &alike, state.ports, from))
}

// The claims go along as a parameter: in a struct with the shelf they made the slot's frame larger by 48 bytes, and with claims a slot of
// sixteen ports took 1.05 to 1.08 of the time.
fn give(shelf: Orderly, pre: Table, t: Target, work: Work) -> Work
    requires { t.0 < shelf.state.ports }
    ensures { result ≡ give shelf.state pre t.0 work }
{
    let i = planner(shelf, pre, t);
    if holds(pre[i.0], t.0) {
        join_pair(work, i, t)
    } else {
        work
    }
}

#[tactic(auto, using(laws::proofs::Loops::again, laws::proofs::Loops::done, laws::proofs::Loops::none), unfolding(crate::specs::Planned::planned))]
fn give_all(shelf: Orderly, pre: Table, work: Work) -> Work
    ensures { result ≡ planned shelf.state pre work }
{
    let mut now = work;
    for t in 0..shelf.state.ports {
        now = give(shelf, pre, Target(t), now);
    }
    now
}

// Most slots have no claim, and then no target is looked at.
fn planned(shelf: Orderly, pre: Table, work: Work) -> Work
    ensures { result ≡ planned shelf.state pre work }
{
    if any_live(pre, shelf.state.ports) {
        give_all(shelf, pre, work)
    } else {
        work
    }
}

// Both rules, on the tables as the shelf sees them.
fn started(shelf: Orderly, req: Table, pre: Table) -> Work
    ensures { result ≡ start shelf.state req pre }
{
    let ports = shelf.state.ports;
    let work = Work {
        live: within(ports, req),
        held: State::empty_table(),
    };
    planned(shelf, within(ports, pre), work)
}

// For every state: on one that numbers 1 or 2 decline, as a single port.
pub fn start(state: State, req: Table, pre: Table) -> Work
    ensures { result ≡ start (orderly most_ports state) req pre }
{
    started(Orderly::of(state), req, pre)
}
