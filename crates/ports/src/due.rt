// Whether a slot is due: the numbers 1 to 5.
ghost use Rattle.std.specs.Prelude.{◌≡◌};
ghost use Rattle.refusals.specs.Numbers.{number_of};
ghost use Rattle.frames.specs.Part.{most_ports};
ghost use Rattle.ports.specs.Due.{behind, wrong_limit, due_number};

use crate::many::wrong_ports;
use crate::state::{Mode, State};
use refusals::Refusal;

fn behind(state: State, slot: u32) -> u32
    ensures { result ≡ behind state slot }
{
    std::num::wrapping_sub_u32(state.due, slot)
}

fn wrong_limit(mode: Mode) -> bool
    ensures { result ≡ wrong_limit most_ports mode }
{
    match mode {
        Mode::Central => false,
        Mode::Distributed(limit) => (limit < 1) | ((State::MOST as u32) < limit),
        Mode::Diagonal => false,
    }
}

// The slot is to be served, or one of the numbers 1 to 5.
pub fn check_due(state: State, slot: u32, mode: Mode) -> Result<(), Refusal>
    ensures { number_of result ≡ due_number most_ports state slot mode }
{
    if wrong_ports(state.ports) {
        return Err(Refusal::BadPorts);
    }
    if (state.ports <= state.initiator.0) | (state.ports <= state.target.0) {
        return Err(Refusal::BadOffset);
    }
    let late = behind(state, slot);
    if (1 <= late) & (late <= 2147483648) {
        return Err(Refusal::SlotStale);
    }
    if 2147483648 < late {
        return Err(Refusal::SlotEarly);
    }
    if wrong_limit(mode) {
        return Err(Refusal::BadLimit);
    }
    Ok(())
}
