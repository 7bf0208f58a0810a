// A number for each initiator, held in four planes: bit i of a plane is one digit of initiator i's number. And the least of them.
ghost use Rattle.std.specs.Prelude.{◌≡◌, ◌<◌};
ghost use Rattle.columns.specs.Planes.{digits, more, less, narrow, lowest, winner};
ghost use Rattle.laws.specs.Sets.{has};

#[derive(Clone, Copy)]
pub struct Planes {
    pub ones: u32,
    pub twos: u32,
    pub fours: u32,
    pub eights: u32,
}

// One more for each initiator of x, modulo 16.
#[tactic(auto, unfolding(crate::specs::Planes::more, crate::specs::Planes::plus))]
pub(crate) fn more(p: Planes, x: u32) -> Planes
    ensures { result ≡ more p x }
{
    let c = p.ones & x;
    let d = p.twos & c;
    let e = p.fours & d;
    Planes {
        ones: p.ones ^ x,
        twos: p.twos ^ c,
        fours: p.fours ^ d,
        eights: p.eights ^ e,
    }
}

// One less for each initiator of x, modulo 16.
#[tactic(auto, unfolding(crate::specs::Planes::less, crate::specs::Planes::minus))]
pub(crate) fn less(p: Planes, x: u32) -> Planes
    ensures { result ≡ less p x }
{
    let ones = p.ones ^ x;
    let c = x & ones;
    let twos = p.twos ^ c;
    let d = c & twos;
    let fours = p.fours ^ d;
    let e = d & fours;
    Planes {
        ones,
        twos,
        fours,
        eights: p.eights ^ e,
    }
}

// Those of m that are not in the plane; all of m if there is none.
fn narrow(m: u32, plane: u32) -> u32
    ensures { result ≡ narrow m plane }
{
    let x = m & (m ^ plane);
    if x == 0 { m } else { x }
}

// Those of m with the lowest number.
#[tactic(auto, unfolding(crate::specs::Planes::lowest))]
fn lowest(m: u32, p: Planes) -> u32
    ensures { result ≡ lowest (digits p) m }
{
    narrow(narrow(narrow(narrow(m, p.eights), p.fours), p.twos), p.ones)
}

// `words::holds` reads words of 16 bits; a trait for both widths would be longer than both.
pub(crate) fn holds(s: u32, k: usize) -> bool
    requires { k < 32 }
    ensures { result ≡ has s k }
{
    (s >> k) % 2 == 1
}

// Initiator a if it is in m or nobody is. Else the one with the lowest number; among equals, the first in the rotation from a.
pub(crate) fn winner(m: u32, p: Planes, a: usize) -> usize
    requires { a < 32 }
    ensures { result ≡ winner m p a }
{
    if (m == 0) | holds(m, a) {
        a
    } else {
        let by_number = lowest(m, p);
        narrow(by_number, (1 << a) - 1).trailing_zeros() as usize
    }
}
