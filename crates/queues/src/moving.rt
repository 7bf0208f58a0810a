// The granted heads go to the output.
ghost use Rattle.std.specs.Prelude.{◌≡◌, true, ℕ, ◌+◌, ◌*◌, ◌<◌, ◌≤◌, length, get_or};
ghost use Rattle.frames.specs.Part.{most_ports};
ghost use Rattle.queue_records.specs.Entries.{cell_of, target_of};
ghost use Rattle.queue_records.specs.Records.{ports_of, held_of};
ghost use Rattle.queue_records.specs.Order.{most_cells, cell_len, usable};
ghost use Rattle.queue_records.specs.Queue.{cell_at, stored};
ghost use Rattle.queues.specs.Parting.{leaving, forwarded};
ghost use Rattle.queues.specs.Serving.{moved};

use crate::parting::take_heads;
use ports::Table;
use queue_records::{CELL_LEN, Entry, HEAD_LEN, Records};

// Cell x of the pool goes to place t of the output.
fn show(pool: &[u8], x: usize, t: usize, out: &mut [u8])
    requires { (x * cell_len + cell_len ≤ length pool.now) × (t * cell_len + cell_len ≤ length out.old) }
    ensures { out.new ≡ stored cell_len out.old t (cell_at cell_len pool.now x) }
{
    let from = x * CELL_LEN;
    let to = t * CELL_LEN;
    out[to..to + CELL_LEN].copy_from_slice(&pool[from..from + CELL_LEN]);
}

fn forward(leavers: &[u32], pool: &[u8], out: &mut [u8])
    requires { (j : ℕ) → j < length leavers.now → (cell_of most_ports (get_or leavers.now j 0) * cell_len + cell_len ≤ length pool.now) × (target_of most_ports (get_or leavers.now j 0) * cell_len + cell_len ≤ length out.old) }
    ensures { out.new ≡ forwarded most_ports cell_len pool.now leavers.now out.old }
{
    for &word in leavers {
        let entry = Entry::from(word);
        show(pool, entry.cell, entry.target.0, out);
    }
}

// In place: the words are lent.
pub(crate) fn move_heads(words: &mut [u32], sets: Table, pool: &[u8], out: &mut [u8])
    requires { (usable most_ports most_cells cell_len words.old (length pool.now) ≡ true) × (ports_of words.old * cell_len ≤ length out.old) × (length (leaving most_ports sets (held_of words.old)) ≤ most_ports) }
    ensures { (words.new ≡ moved most_ports sets words.old) × (out.new ≡ forwarded most_ports cell_len pool.now (leaving most_ports sets (held_of words.old)) out.old) }
{
    let held = Records { words }.held();
    let end = HEAD_LEN + held;
    let kept = take_heads(&mut words[HEAD_LEN..end], sets);
    words[2] = kept as u32;
    forward(&words[HEAD_LEN + kept..end], pool, out);
}
