// One slot over the queues.
ghost use Rattle.std.specs.Prelude.{◌≡◌, length};
ghost use Rattle.frames.specs.Part.{most_ports};
ghost use Rattle.ports.specs.Served.{stepped_of};
ghost use Rattle.queue_records.specs.Order.{most_cells, cell_len};
ghost use Rattle.queue_steps.specs.Step.{stepped};
ghost use Rattle.queues.specs.Serving.{slot_words, slot_output};

use crate::moving::move_heads;
use ports::{Mode, Served, State};
use refusals::Refusal;

pub fn slot(
    words: &mut [u32],
    state: State,
    slot: u32,
    mode: Mode,
    pool: &[u8],
    out: &mut [u8],
) -> Result<Served, Refusal>
    ensures { (stepped_of most_ports state result ≡ stepped most_ports most_cells cell_len words.old state slot mode (length pool.now) (length out.old)) × (words.new ≡ slot_words most_ports most_cells cell_len words.old state slot mode pool.now out.old) × (out.new ≡ slot_output most_ports most_cells cell_len words.old state slot mode pool.now out.old) }
{
    let served = queue_steps::step(words, state, slot, mode, pool.len(), out.len())?;
    move_heads(words, served.matched.sets, pool, out);
    Ok(served)
}
