// The ledger's calls of the C form.
ghost use Rattle.std.specs.Prelude.{◌≡◌};
ghost use Rattle.frames.specs.Part.{most_ports};
ghost use Rattle.refusals.specs.Numbers.{number_of};
ghost use Rattle.collector_calls.specs.Ledger.{figure_words, asked_number, asked_table, feed_number, feed_words, figures_number, figures_after};

use ledger::Figures;
use lent::fill;
use ports::{Initiator, Target};
use refusals::{Refusal, number_of};
use table_bytes::{STATE_LEN, TABLE_LEN, put_table, state_in, table_in};

pub fn bellacush_asked(state: &[u8], block: &[u8], table: &mut [u8]) -> u32
    ensures { (result ≡ asked_number most_ports state.now block.now table.old) × (table.new ≡ asked_table most_ports state.now block.now table.old) }
{
    if state.len() != STATE_LEN {
        return 8;
    }
    if table.len() != TABLE_LEN {
        return 8;
    }
    let read = state_in(state);
    match shelf::sets_asked(read.ports, read.owners, block) {
        Ok(sets) => {
            put_table(sets, table);
            0
        }
        Err(why) => why.number() as u32,
    }
}

fn feed(ledger: &mut [u32], n: u32, asked: &[u8], connected: &[u8]) -> Result<(), Refusal>
    ensures { (number_of result ≡ feed_number most_ports ledger.old n asked.now connected.now) × (ledger.new ≡ feed_words most_ports ledger.old n asked.now connected.now) }
{
    if (asked.len() != TABLE_LEN) | (connected.len() != TABLE_LEN) {
        return Err(Refusal::BadLen);
    }
    ledger::feed_lent(ledger, n as usize, table_in(asked), table_in(connected))
}

pub fn bellacush_feed(ledger: &mut [u32], n: u32, asked: &[u8], connected: &[u8]) -> u32
    ensures { (result ≡ feed_number most_ports ledger.old n asked.now connected.now) × (ledger.new ≡ feed_words most_ports ledger.old n asked.now connected.now) }
{
    u32::from(number_of(feed(ledger, n, asked, connected)))
}

// A pair's figures as words. No From: the type is the ledger's.
fn in_order(f: Figures) -> [u32; 5]
    ensures { result ≡ figure_words f }
{
    [f.asked, f.connected, f.fresh, f.withdrawn, f.isopen]
}

pub fn bellacush_figures(ledger: &[u32], initiator: u32, target: u32, figures: &mut [u32]) -> u32
    ensures { (result ≡ figures_number most_ports ledger.now initiator target figures.old) × (figures.new ≡ figures_after most_ports ledger.now initiator target figures.old) }
{
    let i = Initiator(initiator as usize);
    let told = ledger::figures_lent(ledger, i, Target(target as usize));
    u32::from(number_of(fill(told.map(in_order), figures)))
}
