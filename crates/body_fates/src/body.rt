// What becomes of a body.
ghost use Rattle.std.specs.Prelude.{◌≡◌};
ghost use Rattle.frames.specs.Part.{most_ports};
ghost use Rattle.body_fates.specs.Fate.{fate_number, fate};

use long_check::ByTables;
use words::intact;

// Kept, or dropped: there are not as many bytes as its entry says; its check differs; its mode, I or J is out of form.
#[derive(Clone, Copy, Debug, PartialEq, Eq)]
pub enum Fate {
    Kept,
    Short,
    Check,
    Form,
}

// The bytes of C's table.
impl From<Fate> for u8 {
    fn from(fate: Fate) -> u8
        ensures { result ≡ fate_number fate }
    {
        match fate {
            Fate::Kept => 0,
            Fate::Short => 1,
            Fate::Check => 2,
            Fate::Form => 3,
        }
    }
}

// Of a body for n ports, of so many slots by its entry.
pub(crate) fn body_fate(n: usize, slots: u16, body: &[u8]) -> Fate
    ensures { result ≡ fate most_ports n slots body.now }
{
    if trace_parts::complete(n, slots, body) {
        if intact::<ByTables>(body) {
            return match trace_parts::read_fields(n, body) {
                Ok(_) => Fate::Kept,
                Err(_) => Fate::Form,
            };
        }
        return Fate::Check;
    }
    Fate::Short
}
