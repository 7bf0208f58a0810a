// The call of the C form that makes a fresh state.
ghost use Rattle.std.specs.Prelude.{◌≡◌, length};
ghost use Rattle.frames.specs.Part.{most_ports};
ghost use Rattle.bellacush.specs.Fresh.{fresh_number, fresh_state};

use ports::State;
use table_bytes::{STATE_LEN, state_bytes};

pub fn bellacush_fresh(n: u32, due: u32, operators: &[u8], state: &mut [u8]) -> u32
    ensures { (result ≡ fresh_number most_ports n due operators.now state.old) × (state.new ≡ fresh_state most_ports n due operators.now state.old) }
{
    // One operator number for each of the greatest number of ports.
    let Ok(operators) = <[u8; State::MOST]>::try_from(operators) else {
        return 8;
    };
    if state.len() != STATE_LEN {
        return 8;
    }
    match State::fresh(n as usize, due, operators) {
        Ok(fresh) => {
            state.copy_from_slice(&state_bytes(fresh));
            0
        }
        Err(why) => why.number() as u32,
    }
}
