// The lines on their way out. They are kept until the next might not fit, since a write for each takes too long.
use lines::Text;
use outside::Streams;
use ports::{State, Table};
use std::io::Result;
use trace_parts::Entry;

// Those that wait to be written, and whether some were lost.
#[derive(Drop)]
pub(crate) struct Lines<'a> {
    to: Streams,
    text: Text<'a>,
    lost: bool,
}

impl<'a> Lines<'a> {
    pub(crate) fn new(to: Streams, bytes: &'a mut [u8]) -> Lines<'a> {
        Lines {
            to,
            text: Text { bytes, len: 0 },
            lost: false,
        }
    }

    // Writes the lines that wait; says so once if they cannot be written.
    pub(crate) fn flush(&mut self) -> Result<()> {
        if !self.lost {
            self.lost = !self.to.print(self.text.written())?;
        }
        self.text.len = 0;
        Ok(())
    }

    fn put(&mut self, slot: u32, n: usize, sets: Table) -> Result<()> {
        self.text.put_line(slot, n, sets);
        if self.text.bytes.len().saturating_sub(self.text.len) < lines::LONGEST {
            return self.flush();
        }
        Ok(())
    }

    // A line for each slot of a body, with no sets for one that is declined. By index: the number is what a slot is asked for by.
    pub(crate) fn put_body(&mut self, n: usize, entry: Entry, body: &[u8]) -> Result<()> {
        let slots = entry.slots;
        let mut state = replays::start_state(n, entry.first, body);
        for k in 0..usize::from(slots) {
            let slot = state.due;
            let mut sets = State::empty_table();
            if let Ok(served) = replays::replay_slot(n, slots, k, body, state) {
                state = served.state;
                sets = served.matched.sets;
            }
            self.put(slot, n, sets)?;
        }
        Ok(())
    }
}
