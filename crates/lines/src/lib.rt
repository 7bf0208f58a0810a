// A slot's table as a line of text.
#![tactic(auto)]

ghost use Rattle.std.specs.Prelude.{[], ◌∷◌, ◌≡◌, ◌<◌, take};
ghost use Rattle.frames.specs.Part.{most_ports};
ghost use Rattle.lines.specs.Line.{decimal, separator, target, targets, initiator, initiators, slot_line};
ghost use Rattle.lines.specs.Put.{Puts};

use ports::{Set, State, Table};
use words::holds;

// No line of a slot is longer.
pub const LONGEST: usize = 1024;

// Text in bytes that are lent, which it fills from the front on; what is put beyond their end is left out.
// The length stands beside the bytes, for they are lent and there is no heap.
// By methods, not by Display: `put_line` and `put_initiators` promise their bytes and cannot fail, and a `write!` may.
#[derive(Drop)]
pub struct Text<'a> {
    pub bytes: &'a mut [u8],
    pub len: usize,
}

impl Text<'_> {
    // What was put so far.
    pub fn written(&self) -> &[u8]
        ensures { result.now ≡ take self.now.len self.now.bytes.now }
    {
        &self.bytes[..self.len.min(self.bytes.len())]
    }

    pub fn put_byte(&mut self, b: u8)
        ensures { Puts self.old (b ∷ []) self.new }
    {
        if self.len < self.bytes.len() {
            self.bytes[self.len] = b;
            self.len += 1;
        }
    }

    #[tactic(auto, using(crate::proofs::Putting::nothing_put, crate::proofs::Putting::bytes_all))]
    pub fn put_text(&mut self, text: &[u8])
        ensures { Puts self.old text.now self.new }
    {
        for &b in text {
            self.put_byte(b);
        }
    }

    pub fn put_number(&mut self, x: u64)
        ensures { Puts self.old (decimal x) self.new }
    {
        let mut digits = [0; 20];
        let n = io::decimal(x, &mut digits);
        self.put_text(&digits[..n]);
    }

    fn put_separator(&mut self, set: Set, t: usize)
        requires { t < most_ports }
        ensures { Puts self.old (separator set t) self.new }
    {
        if set % (1 << t) != 0 {
            self.put_byte(b',');
        }
    }

    fn put_target(&mut self, set: Set, t: usize)
        requires { t < most_ports }
        ensures { Puts self.old (target set t) self.new }
    {
        if holds(set, t) {
            self.put_separator(set, t);
            self.put_number(t as u64);
        }
    }

    #[tactic(auto, unfolding(crate::specs::Line::targets))]
    fn put_targets(&mut self, set: Set)
        ensures { Puts self.old (targets most_ports set) self.new }
    {
        if set == 0 {
            self.put_byte(b'-');
            return;
        }
        // By index: the number is what is asked of the set, and what is put.
        for t in 0..State::MOST {
            self.put_target(set, t);
        }
    }

    fn put_initiator(&mut self, i: usize, set: Set)
        ensures { Puts self.old (initiator most_ports i set) self.new }
    {
        self.put_byte(b' ');
        self.put_number(i as u64);
        self.put_byte(b':');
        self.put_targets(set);
    }

    // All but the label of a line.
    pub fn put_initiators(&mut self, n: usize, sets: Table)
        ensures { Puts self.old (initiators most_ports n sets) self.new }
    {
        for (i, &set) in sets[..n.min(State::MOST)].iter().enumerate() {
            self.put_initiator(i, set);
        }
        self.put_byte(b'\n');
    }

    // The line of a slot, whole.
    pub fn put_line(&mut self, slot: u32, n: usize, sets: Table)
        ensures { Puts self.old (slot_line most_ports slot n sets) self.new }
    {
        self.put_number(u64::from(slot));
        self.put_initiators(n, sets);
    }
}
