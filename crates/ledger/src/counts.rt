// Tables of counts, a count for each pair: that of (i, t) is number i * State::MOST + t.
ghost use Rattle.std.specs.Prelude.{◌≡◌, ◌&&◌, cond, ℕ, ◌+◌, ◌-◌, ◌≤◌, ◌<◌, leb, length, get_or};
ghost use Rattle.frames.specs.Part.{most_ports};
ghost use Rattle.laws.specs.Sets.{has};
ghost use Rattle.ledger.specs.Counts.{pairs, raised, above, most_slots, Room};

use ports::{Set, State, Table};

// One more for each t of the row, at number from + t. A loop of its own: the library has no iterator over the bits that are set.
fn raise_row(counts: &mut [u32], from: usize, row: Set)
    requires { (from + most_ports ≤ length counts.old) × ((t : ℕ) → t < most_ports → get_or counts.old (from + t) 0 < most_slots) }
    ensures { (length counts.new ≡ length counts.old) × ((k : ℕ) → get_or counts.new k 0 ≡ get_or counts.old k 0 + cond (leb from k && has row (k - from)) 1 0) }
{
    let mut left = row;
    while left != 0 {
        counts[from + left.trailing_zeros() as usize] += 1;
        left &= left - 1;
    }
}

#[tactic(auto, using(crate::proofs::CountLaws::all_taken))]
pub(crate) fn raise(counts: &mut [u32], rows: &Table)
    requires { (length counts.old ≡ pairs most_ports) × Room most_ports counts.old }
    ensures { counts.new ≡ raised most_ports rows.now counts.old }
{
    for (i, &row) in rows.iter().enumerate() {
        raise_row(counts, i * State::MOST, row);
    }
}

// A count is above x. Not by `any`, which goes count by count to the first found: a feed was seen to take 0.3 µs more, of 0.2.
#[tactic(auto, using(laws::proofs::Loops::again, laws::proofs::Loops::done, laws::proofs::Loops::none))]
pub(crate) fn above(counts: &[u32], x: u32) -> bool
    ensures { result ≡ above counts.now x (length counts.now) }
{
    let mut found = false;
    for &count in counts {
        found = (x < count) | found;
    }
    found
}
