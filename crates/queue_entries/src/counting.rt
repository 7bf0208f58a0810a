// How many cells a pair holds.
ghost use Rattle.std.specs.Prelude.{◌≡◌, count_by};
ghost use Rattle.refusals.specs.Numbers.{number_of, answer_of};
ghost use Rattle.frames.specs.Part.{most_ports};
ghost use Rattle.queue_records.specs.Entries.{of_pair};
ghost use Rattle.queue_records.specs.Order.{most_cells};
ghost use Rattle.queue_entries.specs.Counting.{count_number, counted};

use crate::queue::Queue;
use ports::{Initiator, Target};
use queue_records::{Entry, HEAD_LEN, Records};
use refusals::Refusal;

// By the numbers: equality of whole entries would ask for the cell, too.
fn is_of(word: u32, i: Initiator, t: Target) -> bool
    ensures { result ≡ of_pair most_ports i.0 t.0 word }
{
    let entry = Entry::from(word);
    (entry.initiator.0 == i.0) & (entry.target.0 == t.0)
}

fn count_those(entries: &[u32], i: Initiator, t: Target) -> usize
    ensures { result ≡ count_by (of_pair most_ports i.0 t.0) entries.now }
{
    let mut cells: usize = 0;
    // No filter().count(): with these sums, several entries are tested at a time.
    for &word in entries {
        cells += usize::from(is_of(word, i, t));
    }
    cells
}

fn can_count(queue: Queue) -> Result<(), Refusal>
    ensures { number_of result ≡ count_number most_ports most_cells queue.entry.records.words.now queue.entry.i.0 queue.entry.t.0 }
{
    queue.check_pair()?;
    if queue.records.in_order() {
        return Ok(());
    }
    Err(Refusal::BadQueues)
}

#[tactic(auto, using(refusals::proofs::Unique::not_done), unfolding(crate::specs::Counting::counted))]
pub fn count(words: &[u32], i: Initiator, t: Target) -> Result<usize, Refusal>
    ensures { answer_of 0 result ≡ counted most_ports most_cells words.now i.0 t.0 }
{
    let records = Records { words };
    can_count(Queue { records, i, t })?;
    let end = HEAD_LEN + records.held();
    Ok(count_those(&words[HEAD_LEN..end], i, t))
}
