// The operators of the ports, as a set of owners.
ghost use Rattle.std.specs.Prelude.{◌≡◌, ◌≤◌, nat_lt, length};
ghost use Rattle.std.specs.List.{list_any};
ghost use Rattle.frames.specs.Part.{most_ports};
ghost use Rattle.ports.specs.Owners.{owners_of};

use crate::state::Set;

// One of the ports is given an operator number above 1.
pub(crate) fn any_above(given: &[u8]) -> bool
    ensures { result ≡ list_any (λ o. nat_lt 1 o) given.now }
{
    given.iter().any(|o| 1 < *o)
}

// The ports that are given operator 1.
#[tactic(auto, using(laws::proofs::Loops::again, laws::proofs::Loops::done, laws::proofs::Loops::none))]
pub(crate) fn owners_of(given: &[u8]) -> Set
    requires { length given.now ≤ most_ports }
    ensures { result ≡ owners_of given.now (length given.now) }
{
    let mut owners = 0;
    for (p, &operator) in given.iter().enumerate() {
        if operator == 1 {
            owners = words::with(owners, p);
        }
    }
    owners
}
