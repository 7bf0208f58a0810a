// One slot, from bytes to bytes, by value.
ghost use Rattle.std.specs.Prelude.{◌≡◌};
ghost use Rattle.refusals.specs.Numbers.{number_of};
ghost use Rattle.frames.specs.Part.{most_ports};
ghost use Rattle.ports.specs.Served.{stepped_of};
ghost use Rattle.shelf.specs.Begun.{begun_of};
ghost use Rattle.shelf.specs.Hosts.{hosts_of};
ghost use Rattle.shelf.specs.Step.{refusal, stepped, output};
ghost use Rattle.shelf.specs.Unanswered.{block_refusal, unanswered};

use crate::grants::write_grants;
use crate::hosts::listen;
use choices::Work;
use frames::{Config, Held};
use ports::{Mode, Orderly, Served, Set, State, check_due};
use refusals::Refusal;

// The parameters are those of the call, as document 01 gives them; a struct of them would be made for these two checks alone.
fn check_block(state: State, slot: u32, mode: Mode, block: &[u8]) -> Result<(), Refusal>
    ensures { number_of result ≡ block_refusal most_ports state slot mode block.now }
{
    check_due(state, slot, mode)?;
    if block.len() != state.ports * Config::LEN {
        return Err(Refusal::BadBlockLen);
    }
    Ok(())
}

fn check_call(state: State, slot: u32, mode: Mode, block: &[u8], out: &[u8]) -> Result<(), Refusal>
    ensures { number_of result ≡ refusal most_ports state slot mode block.now out.now }
{
    check_block(state, slot, mode, block)?;
    if out.len() < state.ports * Held::LEN {
        return Err(Refusal::OutTooShort);
    }
    Ok(())
}

// Who is heard, and the slot up to its live requests.
#[derive(Clone, Copy)]
pub struct Begun {
    pub heard: Set,
    pub work: Work,
}

// What the hosts said is gone when it returns.
fn begin(shelf: Orderly, block: &[u8]) -> Begun
    ensures { result ≡ begun_of most_ports shelf.state (hosts_of most_ports shelf.state.ports block.now) }
{
    let state = shelf.state;
    let told = listen(state.ports, state.owners, block);
    Begun {
        heard: told.heard,
        work: planned::start(state, told.tables.req, told.tables.pre),
    }
}

// The grants of a slot that is served go to the output.
pub fn step(
    state: State,
    slot: u32,
    mode: Mode,
    block: &[u8],
    link: Set,
    out: &mut [u8],
) -> Result<Served, Refusal>
    ensures { (stepped_of most_ports state result ≡ stepped most_ports state slot mode block.now out.old) × (out.new ≡ output most_ports state slot mode block.now link out.old) }
{
    check_call(state, slot, mode, block, out)?;
    let shelf = Orderly { state };
    let begun = begin(shelf, block);
    let served = lcf::finish_due(state, mode, begun.work)?;
    write_grants(shelf, begun.heard, link, served.matched.sets, out);
    Ok(served)
}

// The step of a slot that nobody waits for: no grants are written. It shares with `step` its two calls; a function for both would
// take the check and the grants as closures, and be longer than they are.
pub fn unanswered(state: State, slot: u32, mode: Mode, block: &[u8]) -> Result<Served, Refusal>
    ensures { stepped_of most_ports state result ≡ unanswered most_ports state slot mode block.now }
{
    check_block(state, slot, mode, block)?;
    lcf::finish_due(state, mode, begin(Orderly { state }, block).work)
}
