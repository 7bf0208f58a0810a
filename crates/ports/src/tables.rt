// Tables of sets of ports, as a shelf of n ports sees them.
ghost use Rattle.std.specs.Prelude.{◌≡◌, ◌%◌, ◌^◌, ◌≤◌, min};
ghost use Rattle.frames.specs.Part.{most_ports};
ghost use Rattle.ports.specs.Tables.{within};

use crate::state::{Moved, Set, State, Table};

pub fn at_most(ports: usize) -> usize
    ensures { result ≡ min ports most_ports }
{
    ports.min(State::MOST)
}

// The row's bits below n.
fn clip(row: Set, n: usize) -> Set
    requires { n ≤ most_ports }
    ensures { result ≡ row % 2 ^ n }
{
    (row as Moved % (1 << n)) as Set
}

// The table as n ports see it: rows and bits at or above n are ignored. By index, for the rows from n on stay empty: over the first n
// rows of both tables it would be no shorter.
pub fn within(n: usize, rows: Table) -> Table
    ensures { result ≡ within n rows }
{
    let ports = at_most(n);
    let mut table = State::empty_table();
    for i in 0..ports {
        table[i] = clip(rows[i], ports);
    }
    table
}
