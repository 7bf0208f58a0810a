// The slot call of the C form, over the queues.
ghost use Rattle.std.specs.Prelude.{◌≡◌};
ghost use Rattle.frames.specs.Part.{most_ports};
ghost use Rattle.queue_records.specs.Order.{most_cells, cell_len};
ghost use Rattle.queue_calls.specs.Slot.{call_word, call_state, call_table, call_records, call_output};

use bellacush::finish_call;
use ports::Mode;
use table_bytes::state_in;

pub fn bellacush_queue_slot(
    state: &mut [u8],
    slot: u32,
    mode: u32,
    records: &mut [u32],
    pool: &[u8],
    out: &mut [u8],
    table: &mut [u8],
) -> u32
    ensures { (result ≡ call_word most_ports most_cells cell_len state.old slot mode records.old pool.now out.old table.old) × (state.new ≡ call_state most_ports most_cells cell_len state.old slot mode records.old pool.now out.old table.old) × (table.new ≡ call_table most_ports most_cells cell_len state.old slot mode records.old pool.now out.old table.old) × (records.new ≡ call_records most_ports most_cells cell_len state.old slot mode records.old pool.now out.old table.old) × (out.new ≡ call_output most_ports most_cells cell_len state.old slot mode records.old pool.now out.old table.old) }
{
    let Some(state) = state.as_mut_array() else {
        return 8;
    };
    let Some(table) = table.as_mut_array() else {
        return 8;
    };
    let stepped = queues::slot(records, state_in(state), slot, Mode::from(mode), pool, out);
    finish_call(stepped, state, table)
}
