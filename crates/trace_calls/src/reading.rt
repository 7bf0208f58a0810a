// What is read of a trace, in words that are lent.
ghost use Rattle.std.specs.Prelude.{◌≡◌, ◌≤◌, IfOk};
ghost use Rattle.refusals.specs.Numbers.{answer_of};
ghost use Rattle.frames.specs.Part.{most_ports};
ghost use Rattle.trace_parts.specs.Contents.{no_head, file_head, no_description, read_entry};
ghost use Rattle.traces.specs.Trace.{trace_head, trace_entry};
ghost use Rattle.trace_calls.specs.Shown.{head_words, head_number, head_shown, entry_words, entry_number, entry_shown};

use lent::fill;
use refusals::{Refusal, number_of};
use trace_parts::{Described, Head};

// No From: neither type is of this crate.
fn head_words(head: Head) -> [u32; 2]
    requires { (head.ports ≤ 65535) × (head.count ≤ 65535) }
    ensures { result ≡ head_words head }
{
    [head.ports as u32, head.count as u32]
}

// No From: neither type is of this crate.
fn entry_words(body: Described) -> [u32; 4]
    ensures { result ≡ entry_words body }
{
    let entry = body.entry;
    [entry.first, u32::from(entry.slots), entry.offset, body.len]
}

fn fill_head(read: Result<Head, Refusal>, shown: &mut [u32]) -> u32
    requires { IfOk read (λ head. (head.ports ≤ 65535) × (head.count ≤ 65535)) }
    ensures { (result ≡ head_number (answer_of no_head read) shown.old) × (shown.new ≡ head_shown (answer_of no_head read) shown.old) }
{
    u32::from(number_of(fill(read.map(head_words), shown)))
}

fn fill_entry(read: Result<Described, Refusal>, body: &mut [u32]) -> u32
    ensures { (result ≡ entry_number (answer_of no_description read) body.old) × (body.new ≡ entry_shown (answer_of no_description read) body.old) }
{
    u32::from(number_of(fill(read.map(entry_words), body)))
}

// Of a whole file.
pub fn show_trace(file: &[u8], shown: &mut [u32]) -> u32
    ensures { (result ≡ head_number (trace_head most_ports file.now) shown.old) × (shown.new ≡ head_shown (trace_head most_ports file.now) shown.old) }
{
    fill_head(traces::trace_head(file), shown)
}

pub fn show_body(file: &[u8], k: u32, body: &mut [u32]) -> u32
    ensures { (result ≡ entry_number (trace_entry most_ports file.now k) body.old) × (body.new ≡ entry_shown (trace_entry most_ports file.now k) body.old) }
{
    fill_entry(traces::trace_entry(file, k as usize), body)
}

// Of the start of a file of so many bytes.
pub fn show_contents(start: &[u8], len: usize, shown: &mut [u32]) -> u32
    ensures { (result ≡ head_number (file_head most_ports len start.now) shown.old) × (shown.new ≡ head_shown (file_head most_ports len start.now) shown.old) }
{
    fill_head(trace_parts::file_head(start, len), shown)
}

// Of contents that were found sound.
pub fn show_entry(start: &[u8], k: u32, body: &mut [u32]) -> u32
    ensures { (result ≡ entry_number (read_entry most_ports start.now k) body.old) × (body.new ≡ entry_shown (read_entry most_ports start.now k) body.old) }
{
    fill_entry(trace_parts::read_entry(start, k as usize), body)
}
