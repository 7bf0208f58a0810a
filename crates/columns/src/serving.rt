// Rule 5 over columns.
ghost use Rattle.std.specs.Prelude.{◌≡◌, cond, ◌-◌, ◌^◌, ◌%◌, ◌<◌};
ghost use Rattle.frames.specs.Part.{most_ports};
ghost use Rattle.std.specs.Int.Bits.{bit_and};
ghost use Rattle.laws.specs.Sets.{has, with, without};
ghost use Rattle.ports.specs.Due.{orderly};
ghost use Rattle.central.specs.Central.{central};
ghost use Rattle.columns.specs.Serving.{counted, serve, InRange};

use crate::planes::{Planes, holds, less, more, winner};
use crate::transpose::{column, columns};
use choices::{Work, pair_at};
use ports::{Orderly, Set, State, Table};
use words::with;

// The unmatched initiators, and the number of targets still to come that each asks for.
#[derive(Clone, Copy)]
pub struct Board {
    pub free: u32,
    pub planes: Planes,
}

// A served target with its winner; if nobody asked, none is joined. No Option: the definition `serve` names the winner then, too.
#[derive(Clone, Copy)]
pub struct Served {
    pub board: Board,
    pub target: usize,
    pub winner: usize,
    pub joined: bool,
}

#[tactic(auto, using(laws::proofs::Loops::again, laws::proofs::Loops::done, laws::proofs::Loops::none))]
fn counted(sides: &Table) -> Planes
    ensures { result ≡ counted sides.now 16 }
{
    let mut p = Planes {
        ones: 0,
        twos: 0,
        fours: 0,
        eights: 0,
    };
    for &side in sides {
        p = more(p, u32::from(side));
    }
    p
}

// All initiators.
fn all(shelf: Orderly) -> u32
    ensures { result ≡ 2 ^ shelf.state.ports - 1 }
{
    (1 << shelf.state.ports) - 1
}

// A target is taken modulo the greatest port count.
fn given(held: Set, joined: bool, t: usize) -> Set
    ensures { result ≡ cond joined (with held (t % most_ports)) held }
{
    if joined { with(held, t) } else { held }
}

fn serve(shelf: Orderly, sides: &Table, k: usize, board: Board) -> Served
    requires { (k < shelf.state.ports) × (InRange shelf.state sides.now k board) }
    ensures { (result ≡ serve shelf.state sides.now k board) × (result.winner < 16) × (result.target < 16) }
{
    let favoured = pair_at(shelf, k);
    let t = favoured.target.0;
    let a = favoured.initiator.0;
    let asked = column(sides, t);
    let planes = less(board.planes, asked);
    let among = board.free & asked;
    let w = winner(among, planes, a);
    let joined = holds(among, w);
    Served {
        board: Board {
            // Without w, if it asked.
            free: board.free - (board.free & asked & (1 << w)),
            planes,
        },
        target: t,
        winner: w,
        joined,
    }
}

// The sets held are those that the plain rule leaves. By index, for the steps are numbered, and each names its target.
fn all_served(shelf: Orderly, live: Table, held: Table) -> Table
    ensures { result ≡ (central shelf.state (record { live = live; held = held }) shelf.state.ports).held }
{
    let n = shelf.state.ports;
    let sides = columns(live);
    let mut board = Board {
        free: all(shelf),
        planes: counted(&sides),
    };
    let mut sets = held;
    for k in 0..n {
        let served = serve(shelf, &sides, k, board);
        let w = served.winner;
        sets[w] = given(sets[w], served.joined, served.target);
        board = served.board;
    }
    sets
}

// For every state: on one that numbers 1 or 2 decline, as a single port.
pub fn serve_columns(state: State, work: Work) -> Table
    ensures { result ≡ (central (orderly most_ports state) work (orderly most_ports state).ports).held }
{
    all_served(Orderly::of(state), work.live, work.held)
}
