// Rule 6, the distributed form.
ghost use Rattle.std.specs.Prelude.{◌≡◌, true, min, ◌+◌, ◌<◌, ◌≤◌};
ghost use Rattle.frames.specs.Part.{most_ports};
ghost use Rattle.ports.specs.Due.{orderly};
ghost use Rattle.choices.specs.Join.{join_live};
ghost use Rattle.choices.specs.Live.{any_live};
ghost use Rattle.distributed.specs.Distributed.{askers, round, one_more, distributed};
ghost use Rattle.distributed.specs.Offers.{granted, Offers, accept};

use choices::{Counts, Run, Work, any_live, choose, column, gather, join_pair, sizes, turned};
use ports::{Initiator, Orderly, Set, State, Table, Target, at_most};
use words::holds;

// By index, for the rows from n on stay empty.
fn askers(shelf: Orderly, live: &Table) -> Table
    ensures { result ≡ askers shelf.state live.now }
{
    let n = shelf.state.ports;
    let mut asked = State::empty_table();
    for t in 0..n {
        asked[t] = column(live, n, Target(t));
    }
    asked
}

fn grant(shelf: Orderly, asking: Set, counts: &Counts, t: Target) -> Initiator
    requires { t.0 < shelf.state.ports }
    ensures { (result.0 ≡ granted shelf.state asking counts.now t.0) × (result.0 < shelf.state.ports) }
{
    let state = shelf.state;
    let from = turned(state.ports, state.initiator.0, t.0, state.target.0);
    Initiator(choose(asking, counts, state.ports, from))
}

// By index, for a target is its number, and those from n on grant nothing.
#[tactic(auto, using(laws::proofs::Loops::again, laws::proofs::Loops::done, laws::proofs::Loops::none))]
fn offers(shelf: Orderly, live: &Table, asked: &Table) -> Table
    requires { asked.now ≡ askers shelf.state live.now }
    ensures { Offers shelf.state live.now result }
{
    let counts = sizes(live);
    let mut offered = State::empty_table();
    for t in 0..shelf.state.ports {
        let i = grant(shelf, asked[t], &counts, Target(t));
        let at = i.0;
        offered[at] = gather(offered[at], live[at], t, Target(t));
    }
    offered
}

fn accept(shelf: Orderly, counts: &Counts, offered: Set, i: Initiator, work: Work) -> Work
    requires { i.0 < shelf.state.ports }
    ensures { result ≡ accept shelf.state counts.now offered i.0 work }
{
    let state = shelf.state;
    let from = turned(state.ports, state.target.0, i.0, state.initiator.0);
    let t = Target(choose(offered, counts, state.ports, from));
    if holds(offered, t.0) {
        join_pair(work, i, t)
    } else {
        work
    }
}

// All goes by the requests as the round began: what they say is read before the first pair is joined. By index, for an initiator is
// its number, and those from n on accept nothing.
#[tactic(auto, using(laws::proofs::Loops::again, laws::proofs::Loops::done, laws::proofs::Loops::none))]
fn round(shelf: Orderly, work: Work) -> Work
    ensures { result ≡ round shelf.state work }
{
    let mut current = work;
    let asked = askers(shelf, &current.live);
    let offered = offers(shelf, &current.live, &asked);
    let counts = sizes(&asked);
    for i in 0..shelf.state.ports {
        current = accept(shelf, &counts, offered[i], Initiator(i), current);
    }
    current
}

fn one_more(shelf: Orderly, run: Run) -> Run
    requires { (run.rounds < most_ports) × (any_live run.work.live shelf.state.ports ≡ true) }
    ensures { (result ≡ one_more shelf.state run) × (result.rounds ≤ run.rounds + 1) }
{
    Run {
        work: round(shelf, run.work),
        rounds: run.rounds + 1,
    }
}

fn favoured(shelf: Orderly, work: Work) -> Work
    ensures { result ≡ join_live work shelf.state.initiator.0 shelf.state.target.0 }
{
    let i = shelf.state.initiator;
    let t = shelf.state.target;
    if holds(work.live[i.0], t.0) {
        join_pair(work, i, t)
    } else {
        work
    }
}

// It ends with the last live request: the turns that the limit still allows would change nothing, and cost time.
#[tactic(auto, using(laws::proofs::Loops::again, laws::proofs::Loops::done, laws::proofs::Loops::none))]
fn rounds_of(shelf: Orderly, limit: u32, work: Work) -> Run
    requires { limit ≤ most_ports }
    ensures { result ≡ distributed shelf.state limit work }
{
    let mut run = Run {
        work: favoured(shelf, work),
        rounds: 0,
    };
    for k in 0..limit {
        if any_live(run.work.live, shelf.state.ports) {
            run = one_more(shelf, run);
        } else {
            break;
        }
    }
    run
}

// For every state, as a single port on one that numbers 1 or 2 decline; and with the greatest limit in place of one above it.
pub fn serve_rounds(state: State, limit: u32, work: Work) -> Run
    ensures { result ≡ distributed (orderly most_ports state) (min limit most_ports) work }
{
    rounds_of(Orderly::of(state), limit.min(State::MOST as u32), work)
}
