// The queue of a pair.
ghost use Rattle.std.specs.Prelude.{◌≡◌, ◌||◌, cond, leb, ltb};
ghost use Rattle.refusals.specs.Numbers.{number_of};
ghost use Rattle.frames.specs.Part.{most_ports};
ghost use Rattle.queue_records.specs.Records.{ports_of};

use ports::{Initiator, Target};
use queue_records::Records;
use refusals::Refusal;

// In these records.
#[derive(Clone, Copy)]
pub(crate) struct Queue<'a> {
    pub(crate) records: Records<'a>,
    pub(crate) i: Initiator,
    pub(crate) t: Target,
}

impl Queue<'_> {
    // The pair is one of a shelf: the numbers 1 and 17.
    pub(crate) fn check_pair(self) -> Result<(), Refusal>
        ensures { number_of result ≡ cond (ltb (ports_of self.entry.records.words.now) 1 || ltb most_ports (ports_of self.entry.records.words.now)) 1 (cond (leb (ports_of self.entry.records.words.now) self.entry.i.0 || leb (ports_of self.entry.records.words.now) self.entry.t.0) 17 0) }
    {
        let ports = self.records.ports();
        if ports::wrong_ports(ports) {
            return Err(Refusal::BadPorts);
        }
        if (ports <= self.i.0) | (ports <= self.t.0) {
            return Err(Refusal::BadQueues);
        }
        Ok(())
    }
}
