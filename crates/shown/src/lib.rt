// A slot and its answer as one line of text. An error is that of printing; the text may then stand there in part.
#![tactic(auto)]

ghost use Rattle.std.specs.Prelude.{◌≡◌};
ghost use Rattle.frames.specs.Part.{most_ports};
ghost use Rattle.shown.specs.Slots.{state_at, rows_of};

use lines::Text;
use ports::{Initiator, State, Table, Target};
use std::io::Result;

pub fn letter(rt: &impl Print, x: u8) -> Result<()> {
    rt.write_all(&[x])
}

// The slot that is due at the states below.
pub const SLOT: u32 = 7;

// A state of n ports at offsets (i, j).
pub fn at(n: usize, i: usize, j: usize) -> State
    ensures { result ≡ state_at n i j 7 }
{
    due_at(n, i, j, SLOT)
}

pub fn due_at(n: usize, i: usize, j: usize, due: u32) -> State
    ensures { result ≡ state_at n i j due }
{
    State {
        ports: n,
        initiator: Initiator(i),
        target: Target(j),
        due,
        owners: 0,
    }
}

// A table whose first four rows are the four digits of a hexadecimal number, row 0 the last.
pub fn rows(digits: u16) -> Table
    ensures { result ≡ rows_of most_ports digits }
{
    let mut table = State::empty_table();
    table[0] = digits % 16;
    table[1] = digits / 16 % 16;
    table[2] = digits / 256 % 16;
    table[3] = digits / 4096;
    table
}

// The sets of the first n initiators, and the line's end.
pub fn sets(rt: &impl Print, n: usize, sets: Table) -> Result<()> {
    let mut bytes = [0; lines::LONGEST];
    let mut line = Text {
        bytes: &mut bytes,
        len: 0,
    };
    line.put_initiators(n, sets);
    rt.write_all(line.written())
}
