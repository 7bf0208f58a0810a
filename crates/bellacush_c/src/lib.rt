// The slot call and the call that makes a fresh state, as C calls them: an object of their own.
// C has a name for each, so each is one call of the crate below.
#![tactic(auto)]

ghost use Rattle.std.specs.Prelude.{◌≡◌};
ghost use Rattle.frames.specs.Part.{most_ports};
ghost use Rattle.bellacush.specs.Fresh.{fresh_number, fresh_state};
ghost use Rattle.bellacush.specs.Slot.{slot_word, slot_state, slot_table, slot_output};

use ports::Set;

#[unsafe(no_mangle)]
pub extern "C" fn bellacush_fresh(n: u32, due: u32, operators: &[u8], state: &mut [u8]) -> u32
    ensures { (result ≡ fresh_number most_ports n due operators.now state.old) × (state.new ≡ fresh_state most_ports n due operators.now state.old) }
{
    bellacush::bellacush_fresh(n, due, operators, state)
}

#[unsafe(no_mangle)]
pub extern "C" fn bellacush_slot(
    state: &mut [u8],
    slot: u32,
    mode: u32,
    block: &[u8],
    link: Set,
    out: &mut [u8],
    table: &mut [u8],
) -> u32
    ensures { (result ≡ slot_word most_ports state.old slot mode block.now out.old table.old) × (state.new ≡ slot_state most_ports state.old slot mode block.now out.old table.old) × (table.new ≡ slot_table most_ports state.old slot mode block.now out.old table.old) × (out.new ≡ slot_output most_ports state.old slot mode block.now link out.old table.old) }
{
    bellacush::bellacush_slot(state, slot, mode, block, link, out, table)
}
