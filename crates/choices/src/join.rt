// How a pair is joined: its row and its column stop being live.
ghost use Rattle.std.specs.Prelude.{◌≡◌, map, ◌-◌, ◌%◌, bit_and};
ghost use Rattle.frames.specs.Part.{most_ports};
ghost use Rattle.choices.specs.Join.{join};

use crate::work::Work;
use ports::{Initiator, Set, State, Table, Target};

// The columns of those that are gone stop being live. By index: with the library's `map` here and in `sizes` slots took up to 2.2 times as long.
pub fn clear_columns(rows: Table, gone: Set) -> Table
    ensures { result ≡ map (λ row. row - bit_and row gone) rows }
{
    let mut left = State::empty_table();
    for i in 0..State::MOST {
        left[i] = words::minus(rows[i], gone);
    }
    left
}

// Each number is taken modulo the greatest port count.
pub fn join_pair(work: Work, i: Initiator, t: Target) -> Work
    ensures { result ≡ join work (i.0 % most_ports) (t.0 % most_ports) }
{
    let at = i.0 % State::MOST;
    let mut live = work.live;
    let mut held = work.held;
    live[at] = 0;
    held[at] = words::with(held[at], t.0);
    Work {
        live: clear_columns(live, words::with(0, t.0)),
        held,
    }
}
