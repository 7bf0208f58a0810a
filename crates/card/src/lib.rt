// The card's slot loop keeps one state and lends it for each slot call.
#![tactic(auto)]

ghost use Rattle.frames.specs.Part.{most_ports};
ghost use Rattle.ports.specs.Served.{slot_answer};
ghost use Rattle.card.specs.Slot.{Lent};

use ports::{Matched, Mode, Set, State};
use refusals::Refusal;

pub fn slot(
    state: &mut State,
    slot: u32,
    mode: Mode,
    block: &[u8],
    link: Set,
    out: &mut [u8],
) -> Result<Matched, Refusal>
    ensures { Lent most_ports state.old slot mode block.now link out.old (slot_answer most_ports result) state.new out.new }
{
    let served = shelf::step(*state, slot, mode, block, link, out)?;
    *state = served.state;
    Ok(served.matched)
}
