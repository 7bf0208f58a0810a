// The queues of the compact shelf, as C calls them.
// C has a name for each, so each is one call of the crate below.
#![tactic(auto)]

ghost use Rattle.std.specs.Prelude.{◌≡◌};
ghost use Rattle.frames.specs.Part.{most_ports};
ghost use Rattle.queue_records.specs.Order.{most_cells, cell_len};
ghost use Rattle.queue_records.specs.Making.{new_number, new_words};
ghost use Rattle.queue_entries.specs.Adding.{add_number, add_words, add_pool};
ghost use Rattle.queue_entries.specs.Counting.{counted};
ghost use Rattle.queue_calls.specs.Count.{count_word};
ghost use Rattle.queue_calls.specs.Slot.{call_word, call_state, call_table, call_records, call_output};

#[unsafe(no_mangle)]
pub extern "C" fn bellacush_new_queues(records: &mut [u32], n: u32, pool: usize) -> u32
    ensures { (result ≡ new_number most_ports most_cells cell_len records.old n pool) × (records.new ≡ new_words most_ports most_cells cell_len records.old n pool) }
{
    queue_calls::bellacush_new_queues(records, n, pool)
}

#[unsafe(no_mangle)]
pub extern "C" fn bellacush_add_cell(
    records: &mut [u32],
    initiator: u32,
    target: u32,
    cell: &[u8],
    pool: &mut [u8],
) -> u32
    ensures { (result ≡ add_number most_ports most_cells cell_len records.old initiator target cell.now pool.old) × (records.new ≡ add_words most_ports most_cells cell_len records.old initiator target cell.now pool.old) × (pool.new ≡ add_pool most_ports most_cells cell_len records.old initiator target cell.now pool.old) }
{
    queue_calls::bellacush_add_cell(records, initiator, target, cell, pool)
}

#[unsafe(no_mangle)]
pub extern "C" fn bellacush_count_cells(records: &[u32], initiator: u32, target: u32) -> u32
    ensures { result ≡ count_word (counted most_ports most_cells records.now initiator target) }
{
    queue_calls::bellacush_count_cells(records, initiator, target)
}

#[unsafe(no_mangle)]
pub extern "C" fn bellacush_queue_slot(
    state: &mut [u8],
    slot: u32,
    mode: u32,
    records: &mut [u32],
    pool: &[u8],
    out: &mut [u8],
    table: &mut [u8],
) -> u32
    ensures { (result ≡ call_word most_ports most_cells cell_len state.old slot mode records.old pool.now out.old table.old) × (state.new ≡ call_state most_ports most_cells cell_len state.old slot mode records.old pool.now out.old table.old) × (table.new ≡ call_table most_ports most_cells cell_len state.old slot mode records.old pool.now out.old table.old) × (records.new ≡ call_records most_ports most_cells cell_len state.old slot mode records.old pool.now out.old table.old) × (out.new ≡ call_output most_ports most_cells cell_len state.old slot mode records.old pool.now out.old table.old) }
{
    queue_calls::bellacush_queue_slot(state, slot, mode, records, pool, out, table)
}
