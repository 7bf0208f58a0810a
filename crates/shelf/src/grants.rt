// The grant frames that answer a slot.
ghost use Rattle.std.specs.Prelude.{◌≡◌, ◌≤◌, ◌<◌, ◌*◌, length, true};
ghost use Rattle.frames.specs.Width.{narrow};
ghost use Rattle.frames.specs.Held.{held_in_form};
ghost use Rattle.frames.specs.Part.{most_ports, told_len};
ghost use Rattle.shelf.specs.Grants.{grant_of, granted};

use frames::Held;
use ports::{Orderly, Set, Table};
use words::holds;

// The set alone, for a table that is handed on is copied for each host.
fn grant_for(heard: Set, link: Set, set: Set, i: usize) -> Held
    requires { i < most_ports }
    ensures { (result ≡ grant_of heard link set i) × (held_in_form narrow result ≡ true) }
{
    Held {
        nodeid: i as u8,
        gntval: set != 0,
        linkerr: holds(link, i),
        crcerr: !holds(heard, i),
        set,
    }
}

// By index, for the table's rows from the ports on are nobody's, and each grant has its place in the output.
pub(crate) fn write_grants(shelf: Orderly, heard: Set, link: Set, sets: Table, out: &mut [u8])
    requires { shelf.state.ports * told_len shelf.state.ports ≤ length out.old }
    ensures { out.new ≡ granted shelf.state.ports heard link sets out.old }
{
    let ports = shelf.state.ports;
    for i in 0..ports {
        let at = i * Held::LEN;
        // Never refused: it is in form, and has its room.
        let _ = frames::write_held(grant_for(heard, link, sets[i], i), &mut out[at..]);
    }
}
