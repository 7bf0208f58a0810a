// Marks, a byte each: which cells the entries are of. No heap, so no set; and a byte is written without being read, as a bit is not.
ghost use Rattle.std.specs.Prelude.{◌≡◌, ℕ, ◌<◌, ◌≤◌, length, get_or};
ghost use Rattle.frames.specs.Part.{most_ports};
ghost use Rattle.laws.specs.Steps.{every};
ghost use Rattle.queue_records.specs.Entries.{cell_of};
ghost use Rattle.queue_records.specs.Marks.{marked, met};

use crate::entry::Entry;

#[tactic(auto, using(laws::proofs::Loops::none, laws::proofs::Loops::again, laws::proofs::Loops::done))]
pub(crate) fn mark_cells(entries: &[u32], marks: &mut [u8])
    requires { (k : ℕ) → k < length entries.now → cell_of most_ports (get_or entries.now k 0) < length marks.old }
    ensures { marks.new ≡ marked (cell_of most_ports) entries.now marks.old }
{
    for &word in entries {
        marks[Entry::from(word).cell] = 1;
    }
}

// The first n are all met.
#[tactic(auto, using(laws::proofs::Every::every_none, laws::proofs::Every::every_again, laws::proofs::Every::every_done))]
pub(crate) fn all_met(marks: &[u8], n: usize) -> bool
    requires { n ≤ length marks.now }
    ensures { result ≡ every (met marks.now) n }
{
    let mut all = true;
    for &mark in &marks[..n] {
        all &= mark == 1;
    }
    all
}
