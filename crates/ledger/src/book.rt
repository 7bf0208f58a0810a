// The ledger by value: an empty one, the feed after a served slot, and the figures of a pair.
ghost use Rattle.std.specs.Prelude.{◌≡◌};
ghost use Rattle.frames.specs.Part.{most_ports};
ghost use Rattle.refusals.specs.Numbers.{number_of, answer_of};
ghost use Rattle.ledger.specs.Ledger.{empty, no_figures, figures_of, shown, over, refusal, number, next, feed};

use crate::counts::{above, raise};
use crate::events::{any, happened};
use crate::pair::Pair;
use ports::{Initiator, State, Table, Target, wrong_ports};
use refusals::Refusal;
use words::holds;

// Four counts for each pair, and the pairs that were asked and not connected in the last counted slot.
// Four arrays, whose counts stand at the same place: document 01's form for the ledger's tables.
#[derive(Clone, Copy)]
pub struct Ledger {
    pub slots: u32,
    pub asked: [u32; Ledger::PAIRS],
    pub connected: [u32; Ledger::PAIRS],
    pub fresh: [u32; Ledger::PAIRS],
    pub withdrawn: [u32; Ledger::PAIRS],
    pub waiting: Table,
}

// The five figures of a pair. Whether it is open is 0 or 1, as the balance of the others adds it.
#[derive(Clone, Copy)]
pub struct Figures {
    pub asked: u32,
    pub connected: u32,
    pub fresh: u32,
    pub withdrawn: u32,
    pub isopen: u32,
}

impl Ledger {
    // How many pairs there are.
    pub const PAIRS: usize = State::MOST * State::MOST;

    // The most slots that are counted.
    pub const SLOTS: u32 = u32::MAX;

    #[tactic(auto, unfolding(crate::specs::Ledger::empty))]
    pub fn empty() -> Ledger
        ensures { result ≡ empty most_ports }
    {
        Ledger {
            slots: 0,
            asked: [0; Ledger::PAIRS],
            connected: [0; Ledger::PAIRS],
            fresh: [0; Ledger::PAIRS],
            withdrawn: [0; Ledger::PAIRS],
            waiting: [0; State::MOST],
        }
    }
}

// A figure is above the slots counted; an open request is one.
fn over(ledger: &Ledger) -> bool
    ensures { result ≡ over most_ports ledger.now }
{
    let x = ledger.slots;
    above(&ledger.asked, x)
        | above(&ledger.connected, x)
        | above(&ledger.fresh, x)
        | above(&ledger.withdrawn, x)
        | ((x < 1) & any(&ledger.waiting))
}

// Why a slot is not to be counted.
#[tactic(auto, unfolding(crate::specs::Ledger::refusal))]
pub(crate) fn refusal(n: usize, slots: u32, over: bool) -> Result<(), Refusal>
    ensures { number_of result ≡ refusal most_ports n slots over }
{
    if wrong_ports(n) {
        return Err(Refusal::BadPorts);
    }
    if (Ledger::SLOTS <= slots) | over {
        return Err(Refusal::BadLedger);
    }
    Ok(())
}

// With one slot more. n and both tables go from feed to happened as they came: a struct would be made and taken apart once.
fn next(ledger: Ledger, n: usize, asked: Table, connected: Table) -> Ledger
    requires { number most_ports ledger n ≡ 0 }
    ensures { result ≡ next most_ports ledger n asked connected }
{
    let slot = happened(n, ledger.waiting, asked, connected);
    let mut next = ledger;
    next.slots += 1;
    raise(&mut next.asked, &slot.asked);
    raise(&mut next.connected, &slot.connected);
    raise(&mut next.fresh, &slot.fresh);
    raise(&mut next.withdrawn, &slot.withdrawn);
    next.waiting = slot.waiting;
    next
}

// A served slot of n ports is counted, with the sets asked and the sets connected; or the ledger is as it was.
pub fn feed(ledger: Ledger, n: usize, asked: Table, connected: Table) -> Result<Ledger, Refusal>
    ensures { answer_of ledger result ≡ feed most_ports ledger n asked connected }
{
    refusal(n, ledger.slots, over(&ledger))?;
    Ok(next(ledger, n, asked, connected))
}

#[tactic(auto, using(crate::proofs::EventLaws::zero_or_one), unfolding(crate::specs::Ledger::figures_of))]
fn pair_figures(ledger: &Ledger, pair: Pair) -> Figures
    ensures { result ≡ figures_of most_ports ledger.now pair.i pair.t }
{
    let at = pair.at();
    Figures {
        asked: ledger.asked[at],
        connected: ledger.connected[at],
        fresh: ledger.fresh[at],
        withdrawn: ledger.withdrawn[at],
        isopen: u32::from(holds(ledger.waiting[pair.i], pair.t)),
    }
}

// The five figures of the pair (i, t).
pub fn figures_of(ledger: Ledger, i: Initiator, t: Target) -> Result<Figures, Refusal>
    ensures { answer_of no_figures result ≡ shown most_ports ledger i.0 t.0 }
{
    let pair = Pair::of(i, t)?;
    Ok(pair_figures(&ledger, pair))
}
