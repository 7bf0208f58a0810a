// The ledger's and the trace's calls, as C calls them: what the collectors' backend links besides.
// C has a name for each, so each is one call of the crate below.
#![tactic(auto)]

ghost use Rattle.std.specs.Prelude.{◌≡◌};
ghost use Rattle.frames.specs.Part.{most_ports};
ghost use Rattle.collector_calls.specs.Ledger.{asked_number, asked_table, feed_number, feed_words, figures_number, figures_after};
ghost use Rattle.trace_parts.specs.Contents.{file_head, read_entry};
ghost use Rattle.traces.specs.Trace.{trace_head, trace_entry};
ghost use Rattle.trace_writer.specs.Sealing.{seal_number, seal_output};
ghost use Rattle.trace_writer.specs.Writer.{write_number, write_output};
ghost use Rattle.replays.specs.Tables.{replay_number, replay_tables};
ghost use Rattle.trace_calls.specs.Shown.{head_number, head_shown, entry_number, entry_shown};

#[unsafe(no_mangle)]
pub extern "C" fn bellacush_asked(state: &[u8], block: &[u8], table: &mut [u8]) -> u32
    ensures { (result ≡ asked_number most_ports state.now block.now table.old) × (table.new ≡ asked_table most_ports state.now block.now table.old) }
{
    collector_calls::bellacush_asked(state, block, table)
}

#[unsafe(no_mangle)]
pub extern "C" fn bellacush_feed(ledger: &mut [u32], n: u32, asked: &[u8], connected: &[u8]) -> u32
    ensures { (result ≡ feed_number most_ports ledger.old n asked.now connected.now) × (ledger.new ≡ feed_words most_ports ledger.old n asked.now connected.now) }
{
    collector_calls::bellacush_feed(ledger, n, asked, connected)
}

#[unsafe(no_mangle)]
pub extern "C" fn bellacush_figures(
    ledger: &[u32],
    initiator: u32,
    target: u32,
    figures: &mut [u32],
) -> u32
    ensures { (result ≡ figures_number most_ports ledger.now initiator target figures.old) × (figures.new ≡ figures_after most_ports ledger.now initiator target figures.old) }
{
    collector_calls::bellacush_figures(ledger, initiator, target, figures)
}

#[unsafe(no_mangle)]
pub extern "C" fn bellacush_trace(file: &[u8], shown: &mut [u32]) -> u32
    ensures { (result ≡ head_number (trace_head most_ports file.now) shown.old) × (shown.new ≡ head_shown (trace_head most_ports file.now) shown.old) }
{
    collector_calls::bellacush_trace(file, shown)
}

#[unsafe(no_mangle)]
pub extern "C" fn bellacush_trace_body(file: &[u8], k: u32, body: &mut [u32]) -> u32
    ensures { (result ≡ entry_number (trace_entry most_ports file.now k) body.old) × (body.new ≡ entry_shown (trace_entry most_ports file.now k) body.old) }
{
    collector_calls::bellacush_trace_body(file, k, body)
}

#[unsafe(no_mangle)]
pub extern "C" fn bellacush_contents(start: &[u8], len: usize, shown: &mut [u32]) -> u32
    ensures { (result ≡ head_number (file_head most_ports len start.now) shown.old) × (shown.new ≡ head_shown (file_head most_ports len start.now) shown.old) }
{
    collector_calls::bellacush_contents(start, len, shown)
}

#[unsafe(no_mangle)]
pub extern "C" fn bellacush_entry(start: &[u8], k: u32, body: &mut [u32]) -> u32
    ensures { (result ≡ entry_number (read_entry most_ports start.now k) body.old) × (body.new ≡ entry_shown (read_entry most_ports start.now k) body.old) }
{
    collector_calls::bellacush_entry(start, k, body)
}

#[unsafe(no_mangle)]
pub extern "C" fn bellacush_replay(
    n: u32,
    first: u32,
    slots: u32,
    body: &[u8],
    tables: &mut [u8],
) -> u32
    ensures { (result ≡ replay_number most_ports n slots body.now tables.old) × (tables.new ≡ replay_tables most_ports n first slots body.now tables.old) }
{
    collector_calls::bellacush_replay(n, first, slots, body, tables)
}

#[unsafe(no_mangle)]
pub extern "C" fn bellacush_seal_body(
    n: u32,
    slots: u32,
    mode: u32,
    i: u32,
    j: u32,
    blocks: &[u8],
    out: &mut [u8],
) -> u32
    ensures { (result ≡ seal_number most_ports n slots (record { mode = mode; initiator = i; target = j }) blocks.now out.old) × (out.new ≡ seal_output most_ports n slots (record { mode = mode; initiator = i; target = j }) blocks.now out.old) }
{
    collector_calls::bellacush_seal_body(n, slots, mode, i, j, blocks, out)
}

#[unsafe(no_mangle)]
pub extern "C" fn bellacush_write_trace(
    n: u32,
    firsts: &[u32],
    slots: &[u16],
    bodies: &[u8],
    out: &mut [u8],
) -> u32
    ensures { (result ≡ write_number most_ports n firsts.now slots.now bodies.now out.old) × (out.new ≡ write_output most_ports n firsts.now slots.now bodies.now out.old) }
{
    collector_calls::bellacush_write_trace(n, firsts, slots, bodies, out)
}
