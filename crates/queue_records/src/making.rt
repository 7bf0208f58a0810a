// New queues.
ghost use Rattle.std.specs.Prelude.{◌≡◌, [], ◌<◌, ◌≤◌, length};
ghost use Rattle.refusals.specs.Numbers.{number_of};
ghost use Rattle.frames.specs.Part.{most_ports};
ghost use Rattle.queue_records.specs.Entries.{entry_of};
ghost use Rattle.queue_records.specs.Records.{records_len, words_of};
ghost use Rattle.queue_records.specs.Order.{most_cells, cell_len};
ghost use Rattle.queue_records.specs.Making.{wrong_pool, fresh_entries, new_number, new_words};

use crate::entry::Entry;
use crate::records::{CELL_LEN, HEAD_LEN, MOST_CELLS};
use ports::{Initiator, Target};
use refusals::Refusal;

// The pool is other than 1 to 960 whole cells.
fn wrong_pool(len: usize) -> bool
    ensures { result ≡ wrong_pool most_cells cell_len len }
{
    (len % CELL_LEN != 0) | ((len / CELL_LEN < 1) | (MOST_CELLS < len / CELL_LEN))
}

// Entry k is of cell k.
fn fresh_entry(k: usize) -> u32
    requires { k < most_cells }
    ensures { result ≡ entry_of most_ports k 0 0 }
{
    u32::from(Entry {
        cell: k,
        initiator: Initiator(0),
        target: Target(0),
    })
}

fn fill(entries: &mut [u32])
    requires { length entries.old ≤ most_cells }
    ensures { entries.new ≡ fresh_entries most_ports (length entries.old) }
{
    for (k, entry) in entries.iter_mut().enumerate() {
        *entry = fresh_entry(k);
    }
}

// In place: the words are lent.
fn start(words: &mut [u32], ports: usize, cells: usize)
    requires { (ports ≤ most_ports) × (cells ≤ most_cells) × (length words.old ≡ records_len cells) }
    ensures { words.new ≡ words_of ports cells [] (fresh_entries most_ports cells) }
{
    words[0] = ports as u32;
    words[1] = cells as u32;
    words[2] = 0;
    fill(&mut words[HEAD_LEN..]);
}

// New queues for a pool of so many bytes.
pub fn new_queues(words: &mut [u32], ports: usize, len: usize) -> Result<(), Refusal>
    ensures { (number_of result ≡ new_number most_ports most_cells cell_len words.old ports len) × (words.new ≡ new_words most_ports most_cells cell_len words.old ports len) }
{
    let cells = len / CELL_LEN;
    if words.len() != HEAD_LEN + cells {
        return Err(Refusal::BadLen);
    }
    if ports::wrong_ports(ports) {
        return Err(Refusal::BadPorts);
    }
    if wrong_pool(len) {
        return Err(Refusal::BadQueues);
    }
    start(words, ports, cells);
    Ok(())
}
