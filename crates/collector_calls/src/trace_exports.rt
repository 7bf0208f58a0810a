// The trace calls by their C names: what C gives goes on, and the number comes back.
ghost use Rattle.std.specs.Prelude.{◌≡◌};
ghost use Rattle.frames.specs.Part.{most_ports};
ghost use Rattle.trace_parts.specs.Contents.{file_head, read_entry};
ghost use Rattle.traces.specs.Trace.{trace_head, trace_entry};
ghost use Rattle.trace_writer.specs.Sealing.{seal_number, seal_output};
ghost use Rattle.trace_writer.specs.Writer.{write_number, write_output};
ghost use Rattle.replays.specs.Tables.{replay_number, replay_tables};
ghost use Rattle.trace_calls.specs.Shown.{head_number, head_shown, entry_number, entry_shown};

pub fn bellacush_trace(file: &[u8], shown: &mut [u32]) -> u32
    ensures { (result ≡ head_number (trace_head most_ports file.now) shown.old) × (shown.new ≡ head_shown (trace_head most_ports file.now) shown.old) }
{
    trace_calls::show_trace(file, shown)
}

pub fn bellacush_trace_body(file: &[u8], k: u32, body: &mut [u32]) -> u32
    ensures { (result ≡ entry_number (trace_entry most_ports file.now k) body.old) × (body.new ≡ entry_shown (trace_entry most_ports file.now k) body.old) }
{
    trace_calls::show_body(file, k, body)
}

pub fn bellacush_contents(start: &[u8], len: usize, shown: &mut [u32]) -> u32
    ensures { (result ≡ head_number (file_head most_ports len start.now) shown.old) × (shown.new ≡ head_shown (file_head most_ports len start.now) shown.old) }
{
    trace_calls::show_contents(start, len, shown)
}

pub fn bellacush_entry(start: &[u8], k: u32, body: &mut [u32]) -> u32
    ensures { (result ≡ entry_number (read_entry most_ports start.now k) body.old) × (body.new ≡ entry_shown (read_entry most_ports start.now k) body.old) }
{
    trace_calls::show_entry(start, k, body)
}

pub fn bellacush_replay(n: u32, first: u32, slots: u32, body: &[u8], tables: &mut [u8]) -> u32
    ensures { (result ≡ replay_number most_ports n slots body.now tables.old) × (tables.new ≡ replay_tables most_ports n first slots body.now tables.old) }
{
    trace_calls::replay_body(n, first, slots, body, tables)
}

pub fn bellacush_seal_body(
    n: u32,
    slots: u32,
    mode: u32,
    i: u32,
    j: u32,
    blocks: &[u8],
    out: &mut [u8],
) -> u32
    ensures { (result ≡ seal_number most_ports n slots (record { mode = mode; initiator = i; target = j }) blocks.now out.old) × (out.new ≡ seal_output most_ports n slots (record { mode = mode; initiator = i; target = j }) blocks.now out.old) }
{
    trace_calls::seal_body(n, slots, mode, i, j, blocks, out)
}

pub fn bellacush_write_trace(
    n: u32,
    firsts: &[u32],
    slots: &[u16],
    bodies: &[u8],
    out: &mut [u8],
) -> u32
    ensures { (result ≡ write_number most_ports n firsts.now slots.now bodies.now out.old) × (out.new ≡ write_output most_ports n firsts.now slots.now bodies.now out.old) }
{
    trace_calls::write_trace(n, firsts, slots, bodies, out)
}
