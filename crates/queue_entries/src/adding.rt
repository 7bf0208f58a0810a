// A cell is added to the queue of a pair.
ghost use Rattle.std.specs.Prelude.{◌≡◌, ◌+◌, ◌*◌, ◌<◌, ◌≤◌, length};
ghost use Rattle.refusals.specs.Numbers.{number_of};
ghost use Rattle.frames.specs.Part.{most_ports};
ghost use Rattle.queue_records.specs.Records.{records_len, cells_of, count_of};
ghost use Rattle.queue_records.specs.Order.{most_cells, cell_len};
ghost use Rattle.queue_records.specs.Queue.{stored};
ghost use Rattle.queue_entries.specs.Adding.{next_cell, entered, add_number, add_words, add_pool};

use crate::queue::Queue;
use ports::{Initiator, Target};
use queue_records::{CELL_LEN, Entry, HEAD_LEN, Records};
use refusals::Refusal;

// A cell for the pair can be taken in.
fn can_add(queue: Queue, cell: &[u8], pool: &[u8]) -> Result<(), Refusal>
    ensures { number_of result ≡ add_number most_ports most_cells cell_len queue.entry.records.words.now queue.entry.i.0 queue.entry.t.0 cell.now pool.now }
{
    let records = queue.records;
    if cell.len() != CELL_LEN {
        return Err(Refusal::BadLen);
    }
    queue.check_pair()?;
    if !records.usable(pool.len()) {
        return Err(Refusal::BadQueues);
    }
    if records.held() == records.cells() {
        return Err(Refusal::QueuesFull);
    }
    Ok(())
}

// The bytes go to cell x of the pool.
fn store(cell: &[u8], x: usize, pool: &mut [u8])
    requires { (length cell.now ≡ cell_len) × (x < most_cells) × (x * cell_len + cell_len ≤ length pool.old) }
    ensures { pool.new ≡ stored cell_len pool.old x cell.now }
{
    let at = x * CELL_LEN;
    pool[at..at + CELL_LEN].copy_from_slice(cell);
}

// The first free entry becomes the last one held. In place: the words are lent.
fn enter(words: &mut [u32], entry: Entry)
    requires { (entry.cell ≡ next_cell most_ports words.old) × (length words.old ≡ records_len (cells_of words.old)) × (count_of words.old < cells_of words.old) }
    ensures { words.new ≡ entered most_ports words.old entry.initiator.0 entry.target.0 }
{
    let held = Records { words }.held();
    words[HEAD_LEN + held] = u32::from(entry);
    words[2] = (held + 1) as u32;
}

// The cell of the first free entry.
fn next_cell(words: &[u32]) -> usize
    ensures { result ≡ next_cell most_ports words.now }
{
    let records = Records { words };
    let first = records.word(HEAD_LEN + records.held());
    Entry::from(first as u32).cell
}

#[tactic(auto, using(refusals::proofs::Unique::not_done), unfolding(crate::specs::Adding::add_words, crate::specs::Adding::add_pool))]
pub fn add(
    words: &mut [u32],
    i: Initiator,
    t: Target,
    cell: &[u8],
    pool: &mut [u8],
) -> Result<(), Refusal>
    ensures { (number_of result ≡ add_number most_ports most_cells cell_len words.old i.0 t.0 cell.now pool.old) × (words.new ≡ add_words most_ports most_cells cell_len words.old i.0 t.0 cell.now pool.old) × (pool.new ≡ add_pool most_ports most_cells cell_len words.old i.0 t.0 cell.now pool.old) }
{
    let records = Records { words };
    can_add(Queue { records, i, t }, cell, pool)?;
    let x = next_cell(words);
    store(cell, x, pool);
    let entry = Entry {
        cell: x,
        initiator: i,
        target: t,
    };
    enter(words, entry);
    Ok(())
}
