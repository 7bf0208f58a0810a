// The calls of the C form that keep the records: new queues, a cell added, the cells of a pair counted.
ghost use Rattle.std.specs.Prelude.{◌≡◌};
ghost use Rattle.frames.specs.Part.{most_ports};
ghost use Rattle.queue_records.specs.Order.{most_cells, cell_len};
ghost use Rattle.queue_records.specs.Making.{new_number, new_words};
ghost use Rattle.queue_entries.specs.Adding.{add_number, add_words, add_pool};
ghost use Rattle.queue_entries.specs.Counting.{counted};
ghost use Rattle.queue_calls.specs.Count.{count_word};

use ports::{Initiator, Target};
use refusals::number_of;

pub fn bellacush_new_queues(records: &mut [u32], n: u32, pool: usize) -> u32
    ensures { (result ≡ new_number most_ports most_cells cell_len records.old n pool) × (records.new ≡ new_words most_ports most_cells cell_len records.old n pool) }
{
    u32::from(number_of(queue_records::new_queues(records, n as usize, pool)))
}

pub fn bellacush_add_cell(
    records: &mut [u32],
    initiator: u32,
    target: u32,
    cell: &[u8],
    pool: &mut [u8],
) -> u32
    ensures { (result ≡ add_number most_ports most_cells cell_len records.old initiator target cell.now pool.old) × (records.new ≡ add_words most_ports most_cells cell_len records.old initiator target cell.now pool.old) × (pool.new ≡ add_pool most_ports most_cells cell_len records.old initiator target cell.now pool.old) }
{
    u32::from(number_of(queue_entries::add(
        records,
        Initiator(initiator as usize),
        Target(target as usize),
        cell,
        pool,
    )))
}

pub fn bellacush_count_cells(records: &[u32], initiator: u32, target: u32) -> u32
    ensures { result ≡ count_word (counted most_ports most_cells records.now initiator target) }
{
    match queue_entries::count(
        records,
        Initiator(initiator as usize),
        Target(target as usize),
    ) {
        Ok(cells) => 256 * cells as u32,
        Err(why) => u32::from(why.number()),
    }
}
