// What the hosts say in a slot.
ghost use Rattle.std.specs.Prelude.{◌≡◌, ◌≤◌};
ghost use Rattle.refusals.specs.Numbers.{answer_of};
ghost use Rattle.frames.specs.Part.{most_ports};
ghost use Rattle.frames.specs.Config.{no_config};
ghost use Rattle.hearing.specs.Heard.{tables};
ghost use Rattle.shelf.specs.Hosts.{said, hosts_of};
ghost use Rattle.shelf.specs.Told.{told_of};

use frames::Config;
use hearing::Tables;
use ports::{Set, State, Table};
use refusals::Refusal;

// A table for each field, as rules 1 to 4 read them, and a table is passed by value (document 01).
#[derive(Clone, Copy)]
pub struct Hosts {
    pub heard: Set,
    pub req: Table,
    pub pre: Table,
    pub ben: Table,
}

fn hear_host(ports: usize, h: usize, block: &[u8]) -> Result<Config, Refusal>
    ensures { answer_of no_config result ≡ said most_ports ports block.now h }
{
    // Document 01 has `host_frame` lend a number, for what its part cannot say; an empty part is declined by the reader.
    let mut number: u8 = 0;
    let frame = frames::host_frame(ports, h, block, &mut number);
    frames::read_config(frame)
}

// By index, for a host is named by its number, and who is not heard keeps an empty row.
fn hear(ports: usize, block: &[u8]) -> Hosts
    requires { ports ≤ most_ports }
    ensures { result ≡ hosts_of most_ports ports block.now }
{
    let mut heard: Set = 0;
    let mut req = [0; State::MOST];
    let mut pre = [0; State::MOST];
    let mut ben = [0; State::MOST];
    for h in 0..ports {
        let Ok(c) = hear_host(ports, h, block) else {
            continue;
        };
        heard = heard | (1 << h);
        req[h] = c.req;
        pre[h] = c.pre;
        ben[h] = c.ben;
    }
    Hosts {
        heard,
        req,
        pre,
        ben,
    }
}

// What counts of req and pre (rules 1 and 2).
fn count_hosts(ports: usize, owners: Set, hosts: Hosts) -> Tables
    ensures { result ≡ tables ports owners hosts.heard hosts.ben hosts.req hosts.pre }
{
    hearing::counted(ports, owners, hosts.heard, hosts.ben, hosts.req, hosts.pre)
}

// Who is heard, and what counts of req and pre.
#[derive(Clone, Copy)]
pub struct Told {
    pub heard: Set,
    pub tables: Tables,
}

// Hears and counts. The votes are gone when it returns.
pub(crate) fn listen(ports: usize, owners: Set, block: &[u8]) -> Told
    requires { ports ≤ most_ports }
    ensures { result ≡ told_of ports owners (hosts_of most_ports ports block.now) }
{
    let hosts = hear(ports, block);
    Told {
        heard: hosts.heard,
        tables: count_hosts(ports, owners, hosts),
    }
}
