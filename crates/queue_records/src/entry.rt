// An entry of the records: the number of a cell, and the pair in whose queue it stands.
ghost use Rattle.std.specs.Prelude.{◌≡◌, ◌^◌, ◌<◌};
ghost use Rattle.frames.specs.Part.{most_ports};
ghost use Rattle.queue_records.specs.Entries.{cell_of, initiator_of, target_of, entry_of};

use ports::{Initiator, State, Target};

const MOST: u32 = State::MOST as u32;

// It fits a word.
#[derive(Clone, Copy)]
pub struct Entry {
    pub cell: usize,
    pub initiator: Initiator,
    pub target: Target,
    ghost fits: { (cell < 2 ^ 24) × (initiator.0 < most_ports) × (target.0 < most_ports) },
}

impl From<u32> for Entry {
    ghost from_gives = { λ word entry. (entry.cell ≡ cell_of most_ports word) × (entry.initiator.0 ≡ initiator_of most_ports word) × (entry.target.0 ≡ target_of most_ports word) × (entry.initiator.0 < most_ports) × (entry.target.0 < most_ports) };

    // By the word's own width, and each number made wider by itself: tests of many entries are then made four at a time, and not two.
    fn from(word: u32) -> Entry {
        Entry {
            cell: (word / (MOST * MOST)) as usize,
            initiator: Initiator((word / MOST % MOST) as usize),
            target: Target((word % MOST) as usize),
        }
    }
}

// As a word of the records.
impl From<Entry> for u32 {
    ghost from_gives = { λ entry word. word ≡ entry_of most_ports entry.cell entry.initiator.0 entry.target.0 };

    fn from(entry: Entry) -> u32 {
        ((entry.cell * State::MOST + entry.initiator.0) * State::MOST + entry.target.0) as u32
    }
}
