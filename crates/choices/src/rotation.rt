// The places of a rotation over the ports.
ghost use Rattle.std.specs.Prelude.{◌≡◌, ◌+◌, ◌%◌, ◌<◌, ◌≤◌, true, false};
ghost use Rattle.std.specs.Option.{MatchOption};
ghost use Rattle.frames.specs.Part.{most_ports};
ghost use Rattle.choices.specs.Choice.{place, turned};
ghost use Rattle.choices.specs.Within.{is_port, place_within, turned_within};

use ports::State;

// n ports in turn, from one of them on.
#[derive(Clone, Copy)]
pub(crate) struct Rotation {
    pub(crate) n: usize,
    pub(crate) from: usize,
    pub(crate) ghost few: { n ≤ most_ports },
    pub(crate) ghost starts: { from < n },
}

// No division: x is below twice n.
fn wrapped(x: usize, n: usize) -> usize
    requires { x < n + n }
    ensures { (result ≡ x % n) × (result < n) }
{
    if x < n { x } else { x - n }
}

impl Rotation {
    // None where there are more ports, or the start is none of them.
    pub(crate) fn of(n: usize, from: usize) -> Option<Rotation>
        ensures { MatchOption result (is_port most_ports n from ≡ false) (λ r. (is_port most_ports n from ≡ true) × (r.n ≡ n) × (r.from ≡ from)) }
    {
        if (n <= State::MOST) & (from < n) {
            Some(Rotation { n, from })
        } else {
            None
        }
    }

    // The k-th place.
    pub(crate) fn place(self, k: usize) -> usize
        requires { k < self.n }
        ensures { (result ≡ place self.n self.from k) × (result < self.n) }
    {
        wrapped(self.from + k, self.n)
    }

    // Where it starts when it moves with x.
    fn turned(self, x: usize, y: usize) -> usize
        requires { (x < self.n) × (y < self.n) }
        ensures { result ≡ turned self.n self.from x y }
    {
        wrapped(wrapped(self.from + self.n - y, self.n) + x, self.n)
    }
}

// The k-th place of the rotation from one of n ports. It cannot fail: `place_within` has 0 where there is none.
pub fn place_of(n: usize, from: usize, k: usize) -> usize
    ensures { result ≡ place_within most_ports n from k }
{
    match Rotation::of(n, from) {
        Some(rotation) if k < n => rotation.place(k),
        _ => 0,
    }
}

// (from + x - y) mod n, where a rotation starts that moves with x. It cannot fail: `turned_within` has 0 where there is none.
pub fn turned(n: usize, from: usize, x: usize, y: usize) -> usize
    ensures { result ≡ turned_within most_ports n from x y }
{
    match Rotation::of(n, from) {
        Some(rotation) if (x < n) & (y < n) => rotation.turned(x, y),
        _ => 0,
    }
}
