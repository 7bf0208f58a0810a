// The ledger in lent words: the slots counted, the four tables of counts, and the sets that wait. In place: read as a Ledger and
// written back, its copies were seen to cost a feed 0.1 µs more, of 0.2.
ghost use Rattle.std.specs.Prelude.{◌≡◌, ◌%◌, ◌^◌};
ghost use Rattle.frames.specs.Part.{most_ports};
ghost use Rattle.refusals.specs.Numbers.{number_of, answer_of};
ghost use Rattle.ledger.specs.Ledger.{no_figures, figures_of, number, next};
ghost use Rattle.ledger.specs.Lent.{ledger_of, words_of, lent_number, lent_feed, lent_shown};

use crate::book::{Figures, Ledger, refusal};
use crate::counts::{above, raise};
use crate::events::{any, happened};
use crate::pair::Pair;
use ports::{Initiator, Set, State, Table, Target};
use refusals::Refusal;
use words::holds;

const ASKED: usize = 1;

const CONNECTED: usize = ASKED + Ledger::PAIRS;

const FRESH: usize = CONNECTED + Ledger::PAIRS;

const WITHDRAWN: usize = FRESH + Ledger::PAIRS;

const WAITING: usize = WITHDRAWN + Ledger::PAIRS;

type Words = [u32; WAITING + State::MOST];

// The bits of a set; those above are ignored, which no conversion of the library does.
fn low(word: u32) -> Set
    ensures { result ≡ word % 2 ^ most_ports }
{
    (word % 65536) as Set
}

fn waiting_of(words: &Words) -> Table
    ensures { result ≡ (ledger_of most_ports words.now).waiting }
{
    std::array::from_fn(|i| low(words[WAITING + i]))
}

fn declined(words: &Words, n: usize) -> Result<(), Refusal>
    ensures { number_of result ≡ number most_ports (ledger_of most_ports words.now) n }
{
    let slots = words[0];
    let over = above(&words[ASKED..WAITING], slots) | ((slots < 1) & any(&waiting_of(words)));
    refusal(n, slots, over)
}

fn count(words: &mut Words, n: usize, asked: Table, connected: Table)
    requires { number most_ports (ledger_of most_ports words.old) n ≡ 0 }
    ensures { words.new ≡ words_of (next most_ports (ledger_of most_ports words.old) n asked connected) }
{
    let slot = happened(n, waiting_of(words), asked, connected);
    words[0] += 1;
    raise(&mut words[ASKED..CONNECTED], &slot.asked);
    raise(&mut words[CONNECTED..FRESH], &slot.connected);
    raise(&mut words[FRESH..WITHDRAWN], &slot.fresh);
    raise(&mut words[WITHDRAWN..WAITING], &slot.withdrawn);
    words[WAITING..].copy_from_slice(&slot.waiting.map(u32::from));
}

// The feed on lent words: those that it declines are as they were.
pub fn feed_lent(words: &mut [u32], n: usize, asked: Table, connected: Table) -> Result<(), Refusal>
    ensures { (number_of result ≡ lent_number most_ports words.old n) × (words.new ≡ lent_feed most_ports words.old n asked connected) }
{
    let Some(words) = words.as_mut_array() else {
        return Err(Refusal::BadLen);
    };
    declined(words, n)?;
    count(words, n, asked, connected);
    Ok(())
}

fn pair_figures(words: &Words, pair: Pair) -> Figures
    ensures { result ≡ figures_of most_ports (ledger_of most_ports words.now) pair.i pair.t }
{
    let at = pair.at();
    Figures {
        asked: words[ASKED + at],
        connected: words[CONNECTED + at],
        fresh: words[FRESH + at],
        withdrawn: words[WITHDRAWN + at],
        isopen: u32::from(holds(low(words[WAITING + pair.i]), pair.t)),
    }
}

// The five figures of the pair (i, t) in lent words.
pub fn figures_lent(words: &[u32], i: Initiator, t: Target) -> Result<Figures, Refusal>
    ensures { answer_of no_figures result ≡ lent_shown most_ports words.now i.0 t.0 }
{
    let Some(words) = words.as_array() else {
        return Err(Refusal::BadLen);
    };
    let pair = Pair::of(i, t)?;
    Ok(pair_figures(words, pair))
}
