// The scheduler's slot over the queues.
ghost use Rattle.std.specs.Prelude.{◌≡◌, ◌+◌, ◌≤◌, length};
ghost use Rattle.frames.specs.Part.{most_ports};
ghost use Rattle.ports.specs.Served.{stepped_of};
ghost use Rattle.queue_records.specs.Records.{head_len, count_of};
ghost use Rattle.queue_records.specs.Order.{most_cells, cell_len};
ghost use Rattle.queue_steps.specs.Step.{scheduled, fits, roomy, stepped};

use crate::asking::requests;
use lcf::slot_on_tables;
use ports::{Mode, Served, State};
use queue_records::{CELL_LEN, Records};
use refusals::Refusal;

// The records and the pool can be used, and are of the shelf whose state this is.
fn fits(words: &[u32], state: State, len: usize) -> bool
    ensures { result ≡ fits most_ports most_cells cell_len words.now state len }
{
    let records = Records { words };
    if records.usable(len) {
        return records.ports() == state.ports;
    }
    false
}

fn scheduled(
    words: &[u32],
    state: State,
    slot: u32,
    mode: Mode,
    room: usize,
) -> Result<Served, Refusal>
    requires { (head_len + count_of words.now ≤ length words.now) × (state.ports ≤ most_ports) }
    ensures { stepped_of most_ports state result ≡ roomy most_ports cell_len state room (scheduled most_ports words.now state slot mode) }
{
    let served = slot_on_tables(state, slot, mode, requests(words), State::empty_table())?;
    if room < state.ports * CELL_LEN {
        return Err(Refusal::OutTooShort);
    }
    Ok(served)
}

// What the scheduler answers.
pub fn step(
    words: &[u32],
    state: State,
    slot: u32,
    mode: Mode,
    len: usize,
    room: usize,
) -> Result<Served, Refusal>
    ensures { stepped_of most_ports state result ≡ stepped most_ports most_cells cell_len words.now state slot mode len room }
{
    if fits(words, state, len) {
        return scheduled(words, state, slot, mode, room);
    }
    Err(Refusal::BadQueues)
}
