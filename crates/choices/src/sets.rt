// Sets of ports as words, and tables of them.
ghost use Rattle.std.specs.Prelude.{◌≡◌, cond, ◌%◌};
ghost use Rattle.std.specs.Int.Count.{ones};
ghost use Rattle.frames.specs.Part.{most_ports};
ghost use Rattle.laws.specs.Sets.{has, with, column, sizes};
ghost use Rattle.choices.specs.Live.{any_live};

use ports::{Set, State, Table, Target, at_most};
use words::holds;

// A number of at most State::MOST for each port.
pub type Counts = [u8; State::MOST];

// s with one more member, an initiator or a target, if the row has t. A member is taken modulo the greatest port count.
pub fn gather(s: Set, row: Set, member: usize, t: Target) -> Set
    ensures { result ≡ cond (has row t.0) (with s (member % most_ports)) s }
{
    if holds(row, t.0) {
        words::with(s, member)
    } else {
        s
    }
}

// By index, for a member is its number, and rows from n on are nobody's.
pub fn column(rows: &Table, n: usize, t: Target) -> Set
    ensures { result ≡ column rows.now n t.0 }
{
    let ports = at_most(n);
    let mut s = 0;
    for i in 0..ports {
        s = gather(s, rows[i], i, t);
    }
    s
}

fn size(row: Set) -> u8
    ensures { result ≡ ones row }
{
    row.count_ones() as u8
}

// By index, as in `clear_columns`.
pub fn sizes(rows: &Table) -> Counts
    ensures { result ≡ sizes rows.now }
{
    let mut counts = [0; State::MOST];
    for i in 0..State::MOST {
        counts[i] = size(rows[i]);
    }
    counts
}

// By index, and no row is passed over: with the library's `any` slots took up to 1.06 of the time.
#[tactic(auto, using(laws::proofs::Loops::again, laws::proofs::Loops::none))]
pub fn any_live(live: Table, n: usize) -> bool
    ensures { result ≡ any_live live n }
{
    let mut found = false;
    for i in 0..at_most(n) {
        found = (live[i] != 0) | found;
    }
    found
}
