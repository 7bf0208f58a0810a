// The slot call of the C form.
ghost use Rattle.std.specs.Prelude.{◌≡◌, length};
ghost use Rattle.frames.specs.Part.{most_ports};
ghost use Rattle.ports.specs.Served.{stepped_of};
ghost use Rattle.table_bytes.specs.State.{state_len, state_in};
ghost use Rattle.table_bytes.specs.Table.{table_len};
ghost use Rattle.bellacush.specs.Slot.{word_of, state_after, table_after, slot_word, slot_state, slot_table, slot_output};

use ports::{Mode, Served, Set};
use refusals::Refusal;
use table_bytes::{STATE_LEN, TABLE_LEN, put_table, state_bytes, state_in};

// Stores the next state and the sets of a slot that was served, and tells how it ended.
pub fn finish_call(
    stepped: Result<Served, Refusal>,
    state: &mut [u8; STATE_LEN],
    table: &mut [u8; TABLE_LEN],
) -> u32
    ensures { (result ≡ word_of (stepped_of most_ports (state_in state.old) stepped).answer) × (state.new ≡ state_after (stepped_of most_ports (state_in state.old) stepped) state.old) × (table.new ≡ table_after (stepped_of most_ports (state_in state.old) stepped) table.old) }
{
    match stepped {
        Ok(served) => {
            state.copy_from_slice(&state_bytes(served.state));
            put_table(served.matched.sets, table);
            256 * served.matched.rounds as u32
        }
        Err(why) => why.number() as u32,
    }
}

// C gives the mode as a number.
pub fn bellacush_slot(
    state: &mut [u8],
    slot: u32,
    mode: u32,
    block: &[u8],
    link: Set,
    out: &mut [u8],
    table: &mut [u8],
) -> u32
    ensures { (result ≡ slot_word most_ports state.old slot mode block.now out.old table.old) × (state.new ≡ slot_state most_ports state.old slot mode block.now out.old table.old) × (table.new ≡ slot_table most_ports state.old slot mode block.now out.old table.old) × (out.new ≡ slot_output most_ports state.old slot mode block.now link out.old table.old) }
{
    let Some(state) = state.as_mut_array() else {
        return 8;
    };
    let Some(table) = table.as_mut_array() else {
        return 8;
    };
    let stepped = shelf::step(state_in(state), slot, Mode::from(mode), block, link, out);
    finish_call(stepped, state, table)
}
