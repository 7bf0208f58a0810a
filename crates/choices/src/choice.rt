// The choice of rules 3, 5 and 6.
ghost use Rattle.std.specs.Prelude.{◌≡◌, ◌<◌, get_or};
ghost use Rattle.frames.specs.Part.{most_ports};
ghost use Rattle.laws.specs.Sets.{has};
ghost use Rattle.choices.specs.Choice.{place, better, choice};
ghost use Rattle.choices.specs.Within.{choice_within};
ghost use Rattle.choices.specs.Scan.{Turned, Scanned};

use crate::rotation::Rotation;
use crate::sets::Counts;
use ports::{Moved, Set};
use words::holds;

// The members still to come, a bit for each place of the rotation after those passed, and the best of those passed.
#[derive(Clone, Copy)]
pub struct Scan {
    pub left: Moved,
    pub passed: usize,
    pub best: usize,
}

impl Rotation {
    // The bounds are of places and ports of this rotation; a type of its places would have to name the rotation by a fact, too.
    fn contend(self, among: Set, numbers: &Counts, k: usize, best: usize) -> usize
        requires { (k < self.n) × (best < self.n) }
        ensures { (result ≡ better (has among) (λ x. get_or numbers.now x 0) (place self.n self.from k) best) × (result < self.n) }
    {
        let x = self.place(k);
        if holds(among, x) & (!holds(among, best) | (numbers[x] < numbers[best])) {
            x
        } else {
            best
        }
    }

    fn rotated(self, among: Set) -> Moved
        ensures { Turned (has among) self.n self.from 0 result }
    {
        let s = Moved::from(among) % (1 << self.n);
        ((s % (1 << self.from)) << (self.n - self.from)) + (s >> self.from)
    }

    // To the next member at once: who does not ask costs no time.
    fn next(self, among: Set, numbers: &Counts, scan: Scan) -> Scan
        requires { (scan.left ≡ 0 → ⊥) × (Scanned (has among) (λ x. get_or numbers.now x 0) self.n self.from scan) }
        ensures { (result.left < scan.left) × (Scanned (has among) (λ x. get_or numbers.now x 0) self.n self.from result) }
    {
        let gap = scan.left.trailing_zeros();
        let k = scan.passed + gap as usize;
        Scan {
            left: (scan.left >> gap) >> 1,
            passed: k + 1,
            best: self.contend(among, numbers, k, scan.best),
        }
    }

    // From member to member.
    fn choose(self, among: Set, numbers: &Counts) -> usize
        ensures { (result ≡ choice (has among) (λ x. get_or numbers.now x 0) self.n self.from) × (result < self.n) }
    {
        let mut scan = Scan {
            left: self.rotated(among),
            passed: 0,
            best: self.from,
        };
        while scan.left != 0 {
            scan = self.next(among, numbers, scan);
        }
        scan.best
    }
}

// The choice where there are so many ports and the start is one of them. It cannot fail: `choice_within` has the start otherwise.
pub fn choose(among: Set, numbers: &Counts, n: usize, from: usize) -> usize
    ensures { result ≡ choice_within most_ports (has among) (λ x. get_or numbers.now x 0) n from }
{
    match Rotation::of(n, from) {
        Some(rotation) => rotation.choose(among, numbers),
        None => from,
    }
}
