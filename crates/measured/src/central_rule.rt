// Rule 5 alone, plain and by columns, on tables as the C form lays them out.
ghost use Rattle.std.specs.Prelude.{◌≡◌};
ghost use Rattle.frames.specs.Part.{most_ports};
ghost use Rattle.measured.specs.Rule.{state_at, asking, sets_after};

use central::serve_targets;
use choices::Work;
use columns::serve_columns;
use ports::{Initiator, State, Table, Target};
use table_bytes::{put_table, table_in};

fn state_at(n: u32, i: u32, j: u32) -> State
    ensures { result ≡ state_at n i j }
{
    State {
        ports: n as usize,
        initiator: Initiator(i as usize),
        target: Target(j as usize),
        due: 0,
        owners: 0,
    }
}

fn asking(live: Table) -> Work
    ensures { result ≡ asking most_ports live }
{
    Work {
        live,
        held: State::empty_table(),
    }
}

// A name for each way, since C calls both: one that took the way would have a clause on it that is longer than these.
#[tactic(auto, unfolding(crate::specs::Rule::sets_after))]
pub fn measured_plain(n: u32, i: u32, j: u32, live: &[u8], sets: &mut [u8])
    ensures { sets.new ≡ sets_after most_ports n i j live.now sets.old }
{
    put_table(
        serve_targets(state_at(n, i, j), asking(table_in(live))).held,
        sets,
    );
}

#[tactic(auto, unfolding(crate::specs::Rule::sets_after))]
pub fn measured_columns(n: u32, i: u32, j: u32, live: &[u8], sets: &mut [u8])
    ensures { sets.new ≡ sets_after most_ports n i j live.now sets.old }
{
    put_table(
        serve_columns(state_at(n, i, j), asking(table_in(live))),
        sets,
    );
}
