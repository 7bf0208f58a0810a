// The bodies of a damaged trace, judged one by one, each by the bytes that the file has of it.
ghost use Rattle.std.specs.Prelude.{◌≡◌, ◌<◌};
ghost use Rattle.frames.specs.Part.{most_ports};
ghost use Rattle.trace_parts.specs.Layout.{most_bodies};
ghost use Rattle.body_fates.specs.Judged.{none_judged, is_full, noted, entered, judge, fate_of};

use crate::body::{Fate, body_fate};
use trace_parts::Layout;

// How many bodies were judged, and the fate of each; how many of them are kept, and the first slots and slot counts of these.
// No heap, so the tables are of fixed length with their counts beside them; and two tables, since C gives the writer two.
#[derive(Clone, Copy)]
pub struct Judged {
    pub bodies: usize,
    pub fates: [Fate; Layout::BODIES],
    pub kept: usize,
    pub firsts: [u32; Layout::BODIES],
    pub slots: [u16; Layout::BODIES],
}

impl Judged {
    #[tactic(auto, unfolding(crate::specs::Judged::none_judged))]
    pub fn none() -> Judged
        ensures { result ≡ none_judged }
    {
        Judged {
            bodies: 0,
            fates: [Fate::Kept; Layout::BODIES],
            kept: 0,
            firsts: [0; Layout::BODIES],
            slots: [0; Layout::BODIES],
        }
    }

    // As many as a trace can have.
    #[tactic(auto, unfolding(crate::specs::Judged::is_full))]
    fn is_full(&self) -> bool
        ensures { result ≡ is_full self.now }
    {
        (Layout::BODIES <= self.bodies) | (Layout::BODIES <= self.kept)
    }

    // One fate more.
    #[tactic(auto, unfolding(crate::specs::Judged::noted))]
    fn note(&mut self, fate: Fate)
        requires { self.old.bodies < most_bodies }
        ensures { self.new ≡ noted fate self.old }
    {
        self.fates[self.bodies] = fate;
        self.bodies = self.bodies + 1;
    }

    // One entry more.
    #[tactic(auto, unfolding(crate::specs::Judged::entered))]
    fn enter(&mut self, first: u32, slots: u16)
        requires { self.old.kept < most_bodies }
        ensures { self.new ≡ entered first slots self.old }
    {
        self.firsts[self.kept] = first;
        self.slots[self.kept] = slots;
        self.kept = self.kept + 1;
    }

    // One body more: the first slot and slot count of its entry, and its bytes as far as the file has them.
    pub fn judge(&mut self, n: usize, first: u32, slots: u16, body: &[u8])
        ensures { self.new ≡ judge most_ports n first slots body.now self.old }
    {
        if self.is_full() {
            return;
        }
        let fate = body_fate(n, slots, body);
        self.note(fate);
        if fate == Fate::Kept {
            self.enter(first, slots);
        }
    }

    // The fate of body k; short where it was not judged.
    pub fn fate_of(&self, k: usize) -> Fate
        ensures { result ≡ fate_of self.now k }
    {
        if (k < self.bodies) & (k < Layout::BODIES) {
            return self.fates[k];
        }
        Fate::Short
    }
}
