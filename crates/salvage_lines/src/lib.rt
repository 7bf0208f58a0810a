// What is dropped of a damaged trace, as lines of text.
#![tactic(auto)]

ghost use Rattle.std.specs.Prelude.{◌≡◌};
ghost use Rattle.frames.specs.Part.{most_ports};
ghost use Rattle.lines.specs.Put.{Puts};
ghost use Rattle.salvage_lines.specs.Dropped.{word, dropped_line, line_of, dropped_lines};

use body_fates::{Fate, Judged};
use lines::Text;

// By its bytes, not by Display: `put_lines` promises the bytes and cannot fail, and a `write!` may.
fn word(fate: Fate) -> &'static [u8]
    ensures { result.now ≡ word fate }
{
    match fate {
        Fate::Short => b"short",
        Fate::Check => b"check",
        Fate::Kept | Fate::Form => b"form",
    }
}

fn put_dropped(to: &mut Text<'_>, first: u32, fate: Fate)
    ensures { Puts to.old (dropped_line first fate) to.new }
{
    if fate == Fate::Kept {
        return;
    }
    to.put_number(u64::from(first));
    to.put_byte(b' ');
    to.put_text(word(fate));
    to.put_byte(b'\n');
}

fn put_line(to: &mut Text<'_>, contents: &[u8], judged: Judged, k: usize)
    ensures { Puts to.old (line_of most_ports contents.now judged k) to.new }
{
    let read = trace_parts::read_entry(contents, k).unwrap_or_default();
    put_dropped(to, read.entry.first, judged.fate_of(k));
}

// A line for each body that was judged and is dropped. By index: the number is what a line's entry and fate are asked by.
pub fn put_lines(to: &mut Text<'_>, contents: &[u8], judged: Judged)
    ensures { Puts to.old (dropped_lines most_ports contents.now judged) to.new }
{
    for k in 0..judged.bodies {
        put_line(to, contents, judged, k);
    }
}
