// How many ports a shelf can have.
ghost use Rattle.std.specs.Prelude.{◌≡◌, ◌||◌, nat_lt};
ghost use Rattle.frames.specs.Part.{most_ports};

use crate::state::State;

// The number is other than 1 to 16.
pub fn wrong_ports(n: usize) -> bool
    ensures { result ≡ (nat_lt n 1 || nat_lt most_ports n) }
{
    (n < 1) | (State::MOST < n)
}
