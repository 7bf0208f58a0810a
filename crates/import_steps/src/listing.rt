// The first slot and the slot count of each body, in lists that are lent.
ghost use Rattle.std.specs.Prelude.{◌≡◌};
ghost use Rattle.import_steps.specs.Taking.{noted};

use crate::taking::Import;

// Puts x at the place of the last of so many bodies.
fn note<T: Copy>(bodies: u16, x: T, list: &mut [T])
    ensures { list.new ≡ noted bodies x list.old }
{
    let bodies = bodies as usize;
    if (1 <= bodies) & (bodies <= list.len()) {
        list[bodies - 1] = x;
    }
}

// Puts those of the last body begun at its place; a list that has no such place stays. Two lists, as the contents' writer takes them.
pub fn note_body(p: Import, firsts: &mut [u32], slots: &mut [u16])
    ensures { (firsts.new ≡ noted p.bodies p.first firsts.old) × (slots.new ≡ noted p.bodies p.slots slots.old) }
{
    note(p.bodies, p.first, firsts);
    note(p.bodies, p.slots, slots);
}
