// The replay of a body of a trace: the tables that its slots gave.
#![tactic(auto)]

ghost use Rattle.std.specs.Prelude.{◌≡◌, ◌++◌, ◌≤◌, length, drop};
ghost use Rattle.refusals.specs.Numbers.{number_of};
ghost use Rattle.frames.specs.Part.{most_ports};
ghost use Rattle.ports.specs.Served.{stepped_of};
ghost use Rattle.table_bytes.specs.Table.{table_put};
ghost use Rattle.replays.specs.Replay.{start_state, replay_slot};
ghost use Rattle.replays.specs.Tables.{all_tables, all_len, replay_number, replay_tables};

use ports::{Initiator, Mode, Served, State, Target};
use refusals::Refusal;
use table_bytes::TABLE_LEN;

// The state before the first slot of a body: a trace has no owners, so every port is operator 0's.
pub fn start_state(n: usize, first: u32, body: &[u8]) -> State
    ensures { result ≡ start_state most_ports n body.now first }
{
    let fields = trace_parts::read_fields(n, body).unwrap_or_default();
    State {
        ports: n,
        initiator: Initiator(fields.initiator),
        target: Target(fields.target),
        due: first,
        owners: 0,
    }
}

// Slot k of a body of so many slots, at the state that the slots before it left.
pub fn replay_slot(
    n: usize,
    slots: u16,
    k: usize,
    body: &[u8],
    state: State,
) -> Result<Served, Refusal>
    ensures { stepped_of most_ports state result ≡ replay_slot most_ports n slots body.now k state }
{
    let fields = trace_parts::read_fields(n, body).unwrap_or_default();
    let block = trace_parts::slot_block(n, slots, k, body).unwrap_or(&[]);
    shelf::unanswered(state, state.due, Mode::from(fields.mode), block)
}

// A body of so many slots, for n ports.
#[derive(Clone, Copy)]
struct Body<'a> {
    n: usize,
    slots: u16,
    bytes: &'a [u8],
}

impl<'a> Body<'a> {
    // Puts the table of slot k at the front of the bytes, and gives the next state.
    fn replay_next(self, k: usize, state: State, out: &mut [u8]) -> State
        ensures { (result ≡ (replay_slot most_ports self.entry.n self.entry.slots self.entry.bytes.now k state).state) × (out.new ≡ table_put most_ports (replay_slot most_ports self.entry.n self.entry.slots self.entry.bytes.now k state).answer.sets out.old) }
    {
        match replay_slot(self.n, self.slots, k, self.bytes, state) {
            Ok(served) => {
                table_bytes::put_table(served.matched.sets, out);
                served.state
            }
            Err(_) => {
                table_bytes::put_table(State::empty_table(), out);
                state
            }
        }
    }

    // By index, for each slot has its place in the body and its table one in the bytes.
    fn replay_all(self, first: u32, tables: &mut [u8])
        requires { all_len most_ports self.slots ≤ length tables.old }
        ensures { tables.new ≡ all_tables most_ports self.entry.n first self.entry.slots self.entry.bytes.now ++ drop (all_len most_ports self.entry.slots) tables.old }
    {
        let mut state = start_state(self.n, first, self.bytes);
        for k in 0..self.slots as usize {
            let at = k * TABLE_LEN;
            state = self.replay_next(k, state, &mut tables[at..]);
        }
    }
}

// Writes the table of slot k of a body from byte 32 k on.
pub fn replay(
    n: usize,
    first: u32,
    slots: u16,
    body: &[u8],
    tables: &mut [u8],
) -> Result<(), Refusal>
    ensures { (number_of result ≡ replay_number most_ports n slots body.now tables.old) × (tables.new ≡ replay_tables most_ports n first slots body.now tables.old) }
{
    if !trace_parts::body_sound(n, slots, body) {
        return Err(Refusal::BadTrace);
    }
    if tables.len() < slots as usize * TABLE_LEN {
        return Err(Refusal::OutTooShort);
    }
    let bytes = body;
    Body { n, slots, bytes }.replay_all(first, tables);
    Ok(())
}
