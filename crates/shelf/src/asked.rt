// The sets asked in a slot, which the ledger is fed.
ghost use Rattle.std.specs.Prelude.{◌≡◌, replicate};
ghost use Rattle.refusals.specs.Numbers.{number_of, answer_of};
ghost use Rattle.frames.specs.Part.{most_ports};
ghost use Rattle.shelf.specs.Asked.{block_number, sets_asked};

use crate::hosts::listen;
use frames::Config;
use ports::{Set, Table, wrong_ports};
use refusals::Refusal;

fn check_ports(n: usize, block: &[u8]) -> Result<(), Refusal>
    ensures { number_of result ≡ block_number most_ports n block.now }
{
    if wrong_ports(n) {
        return Err(Refusal::BadPorts);
    }
    if block.len() != n * Config::LEN {
        return Err(Refusal::BadBlockLen);
    }
    Ok(())
}

// For each host of n, the targets below n and of its operator in its req, if it is heard and enabled.
pub fn sets_asked(n: usize, owners: Set, block: &[u8]) -> Result<Table, Refusal>
    ensures { answer_of (replicate most_ports 0) result ≡ sets_asked most_ports n owners block.now }
{
    check_ports(n, block)?;
    let told = listen(n, owners, block);
    Ok(ports::within(n, told.tables.req))
}
