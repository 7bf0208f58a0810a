// The replay of a body, from plain numbers, as C gives them and takes the answer.
ghost use Rattle.std.specs.Prelude.{◌≡◌};
ghost use Rattle.frames.specs.Part.{most_ports};
ghost use Rattle.replays.specs.Tables.{replay_number, replay_tables};

use crate::writing::MOST_COUNT;
use refusals::number_of;

pub fn replay_body(n: u32, first: u32, slots: u32, body: &[u8], tables: &mut [u8]) -> u32
    ensures { (result ≡ replay_number most_ports n slots body.now tables.old) × (tables.new ≡ replay_tables most_ports n first slots body.now tables.old) }
{
    if MOST_COUNT < slots {
        return 14;
    }
    u32::from(number_of(replays::replay(n as usize, first, slots as u16, body, tables)))
}
