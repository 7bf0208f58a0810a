// The sixteen sets as thirty-two bytes, and a state as nine.
#![tactic(auto)]

mod states;

ghost use Rattle.std.specs.Prelude.{◌≡◌, ◌++◌, ◌≤◌, length, drop};
ghost use Rattle.frames.specs.Part.{most_ports};
ghost use Rattle.laws.specs.Bytes.{big_endian};
ghost use Rattle.table_bytes.specs.Table.{table_len, table_of, table_in, table_bytes, table_put};

use ports::{Set, State, Table};
pub use states::{STATE_LEN, state_bytes, state_in};

pub const TABLE_LEN: usize = State::MOST * 2;

fn read(bytes: &[u8]) -> Table
    requires { table_len most_ports ≤ length bytes.now }
    ensures { result ≡ table_of most_ports bytes.now }
{
    std::array::from_fn(|i| words::of_two(bytes[i * 2], bytes[i * 2 + 1]))
}

// The table at the front of the bytes; an empty one where they are too few, as `table_in` of specs/, which theorems speak of.
pub fn table_in(bytes: &[u8]) -> Table
    ensures { result ≡ table_in most_ports bytes.now }
{
    if bytes.len() < TABLE_LEN {
        return State::empty_table();
    }
    read(bytes)
}

fn put_set(set: Set, out: &mut [u8])
    requires { 2 ≤ length out.old }
    ensures { out.new ≡ big_endian 2 set ++ drop 2 out.old }
{
    out[..2].copy_from_slice(&words::two_bytes(set));
}

fn put(sets: Table, out: &mut [u8])
    requires { table_len most_ports ≤ length out.old }
    ensures { out.new ≡ table_bytes most_ports sets ++ drop (table_len most_ports) out.old }
{
    for (i, &set) in sets.iter().enumerate() {
        put_set(set, &mut out[i * 2..]);
    }
}

// Puts the sets, one for each port, at the front of the bytes; where those are too few, nothing.
pub fn put_table(sets: Table, out: &mut [u8])
    ensures { (out.new ≡ table_put most_ports sets out.old) × (length sets ≡ most_ports) }
{
    if out.len() < TABLE_LEN {
        return;
    }
    put(sets, out);
}
