// A pair of the ledger.
ghost use Rattle.std.specs.Prelude.{◌≡◌, ◌<◌, ◌||◌, leb, true, false, MatchResult};
ghost use Rattle.frames.specs.Part.{most_ports};
ghost use Rattle.refusals.specs.Numbers.{number};
ghost use Rattle.ledger.specs.Counts.{pair};

use ports::{Initiator, State, Target};
use refusals::Refusal;

#[derive(Clone, Copy)]
pub(crate) struct Pair {
    pub(crate) i: usize,
    pub(crate) t: usize,
    ghost inside: { (i < most_ports) × (t < most_ports) },
}

impl Pair {
    pub(crate) fn of(i: Initiator, t: Target) -> Result<Pair, Refusal>
        ensures { MatchResult result (λ p. ((leb most_ports i.0 || leb most_ports t.0) ≡ false) × (p.i ≡ i.0) × (p.t ≡ t.0)) (λ why. ((leb most_ports i.0 || leb most_ports t.0) ≡ true) × (number why ≡ 11)) }
    {
        if (State::MOST <= i.0) | (State::MOST <= t.0) {
            return Err(Refusal::BadGrantField);
        }
        Ok(Pair { i: i.0, t: t.0 })
    }

    // Where its counts stand in each table.
    pub(crate) fn at(self) -> usize
        ensures { result ≡ pair most_ports self.i self.t }
    {
        self.i * State::MOST + self.t
    }
}
