// The granted heads are taken out of the queues.
ghost use Rattle.std.specs.Prelude.{◌≡◌, ◌++◌, ◌<◌, ◌≤◌, length, take, drop};
ghost use Rattle.frames.specs.Part.{most_ports};
ghost use Rattle.queues.specs.Parting.{leaving, staying};

use ports::{State, Table};
use queue_records::Entry;
use words::{holds, without};

// Moves the entries that stay to the front: how many they are, and those that leave, at the front of a list of fixed length, for there is no
// heap, and at most one leaves for each port.
fn part(entries: &mut [u32], sets: Table) -> (usize, [u32; State::MOST])
    requires { length (leaving most_ports sets entries.old) ≤ most_ports }
    ensures { (result.0 ≡ length (staying most_ports sets entries.old)) × (take (length (leaving most_ports sets entries.old)) result.1 ≡ leaving most_ports sets entries.old) × (entries.new ≡ staying most_ports sets entries.old ++ drop result.0 entries.old) }
{
    let mut left = sets;
    let mut kept: usize = 0;
    let mut leavers: [u32; State::MOST] = [0; State::MOST];
    // By index: what is read at k is written at another place of the same list.
    for k in 0..entries.len() {
        let word = entries[k];
        let entry = Entry::from(word);
        let i = entry.initiator.0;
        let t = entry.target.0;
        if holds(left[i], t) {
            left[i] = without(left[i], t);
            leavers[k - kept] = word;
            continue;
        }
        entries[kept] = word;
        kept += 1;
    }
    (kept, leavers)
}

// And puts those that leave behind them.
pub(crate) fn take_heads(entries: &mut [u32], sets: Table) -> usize
    requires { length (leaving most_ports sets entries.old) ≤ most_ports }
    ensures { (result ≡ length (staying most_ports sets entries.old)) × (entries.new ≡ staying most_ports sets entries.old ++ leaving most_ports sets entries.old) }
{
    let (kept, leavers) = part(entries, sets);
    let gone = entries.len() - kept;
    entries[kept..].copy_from_slice(&leavers[..gone]);
    kept
}
