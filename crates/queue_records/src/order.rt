// When the entries are in order.
ghost use Rattle.std.specs.Prelude.{◌≡◌, ◌≤◌, length, get_or};
ghost use Rattle.frames.specs.Part.{most_ports};
ghost use Rattle.laws.specs.Steps.{every};
ghost use Rattle.queue_records.specs.Order.{most_cells, placed, entries_in_order};

use crate::entry::Entry;
use crate::marks::{all_met, mark_cells};
use crate::records::MOST_CELLS;
use ports::State;

fn is_placed(word: u32, ports: usize, cells: usize) -> bool
    ensures { result ≡ placed most_ports ports cells word }
{
    let entry = Entry::from(word);
    (entry.cell < cells) & ((entry.initiator.0 < ports) & (entry.target.0 < ports))
}

// The cells come as the word that says how many there are: tests of one width are made several at a time. The ports come apart from the
// records, since all_placed gives them as a constant.
#[tactic(auto, using(laws::proofs::Every::every_none, laws::proofs::Every::every_again, laws::proofs::Every::every_done))]
fn each_placed(entries: &[u32], ports: usize, cells: usize) -> bool
    ensures { result ≡ every (λ k. placed most_ports ports cells (get_or entries.now k 0)) (length entries.now) }
{
    let mut all = true;
    for &word in entries {
        all &= is_placed(word, ports, cells);
    }
    all
}

// On the greatest shelf every pair is one of the shelf, and with the number in its place the compiler leaves that test out.
fn all_placed(entries: &[u32], ports: usize, cells: usize) -> bool
    ensures { result ≡ every (λ k. placed most_ports ports cells (get_or entries.now k 0)) (length entries.now) }
{
    if ports == State::MOST {
        return each_placed(entries, State::MOST, cells);
    }
    each_placed(entries, ports, cells)
}

pub(crate) fn entries_in_order(entries: &[u32], ports: usize, cells: usize) -> bool
    requires { (length entries.now ≡ cells) × (cells ≤ most_cells) }
    ensures { result ≡ entries_in_order most_ports ports entries.now }
{
    if all_placed(entries, ports, cells) {
        let mut marks = [0u8; MOST_CELLS];
        mark_cells(entries, &mut marks);
        return all_met(&marks, cells);
    }
    false
}
