// One slot on tables: rules 3 to 7.
ghost use Rattle.std.specs.Prelude.{◌≡◌, false};
ghost use Rattle.frames.specs.Part.{most_ports};
ghost use Rattle.ports.specs.Ready.{Ready};
ghost use Rattle.ports.specs.Due.{wrong_limit};
ghost use Rattle.ports.specs.Served.{matched_answer, stepped_of};
ghost use Rattle.central.specs.Central.{central};
ghost use Rattle.lcf.specs.Slot.{opened, serve_mode, ended, slot_on_tables, finish_due};

use crate::advancing::advance;
use central::{serve_targets, take_diagonal};
use choices::Work;
use columns::serve_columns;
use distributed::serve_rounds;
use planned::start;
use ports::{Matched, Mode, Orderly, Served, State, Table, check_due};
use refusals::Refusal;

// From so many ports on the columns are faster than the plain rule, with which they agree.
const COLUMNS_FROM: usize = 5;

// A slot that is served: the state that it finds, and its mode.
#[derive(Clone, Copy)]
struct Due {
    state: State,
    mode: Mode,
    ghost ready: { Ready most_ports state },
    ghost limit: { wrong_limit most_ports mode ≡ false },
}

impl Due {
    // What the mode joins before the central form serves the rest. By the modes, which are C's numbers and no closures of a caller.
    fn opened(self, work: Work) -> Work
        ensures { result ≡ opened self.state self.mode work }
    {
        match self.mode {
            Mode::Central => work,
            Mode::Distributed(limit) => work,
            Mode::Diagonal => take_diagonal(self.state, work),
        }
    }

    // Rule 5, the faster way.
    fn serve_central(self, work: Work) -> Table
        ensures { result ≡ (central self.state work self.state.ports).held }
    {
        if self.state.ports < COLUMNS_FROM {
            serve_targets(self.state, work).held
        } else {
            serve_columns(self.state, work)
        }
    }

    // Rules 5 and 6, and diagonal-first. One call serves by the central form, so that it needs no frame of its own.
    fn serve(self, work: Work) -> Matched
        ensures { (result.sets ≡ (serve_mode self.state self.mode work).work.held) × (result.rounds ≡ (serve_mode self.state self.mode work).rounds) }
    {
        let Mode::Distributed(limit) = self.mode else {
            return Matched {
                sets: self.serve_central(self.opened(work)),
                rounds: 0,
            };
        };
        let run = serve_rounds(self.state, limit, work);
        let after = run.work;
        let sets = after.held;
        Matched {
            sets,
            rounds: run.rounds,
        }
    }

    // Rules 5 to 7.
    fn finish(self, work: Work) -> Served
        ensures { record { state = result.state; answer = matched_answer result.matched } ≡ ended self.state (serve_mode self.state self.mode work) }
    {
        Served {
            state: advance(Orderly { state: self.state }),
            matched: self.serve(work),
        }
    }
}

// The slot that is due, from its live requests on.
pub fn finish_due(state: State, mode: Mode, work: Work) -> Result<Served, Refusal>
    ensures { stepped_of most_ports state result ≡ finish_due most_ports state mode work }
{
    check_due(state, state.due, mode)?;
    Ok(Due { state, mode }.finish(work))
}

// One slot: the next state, sixteen sets of targets and the rounds.
pub fn slot_on_tables(
    state: State,
    slot: u32,
    mode: Mode,
    req: Table,
    pre: Table,
) -> Result<Served, Refusal>
    ensures { stepped_of most_ports state result ≡ slot_on_tables most_ports state slot mode req pre }
{
    check_due(state, slot, mode)?;
    Ok(Due { state, mode }.finish(start(state, req, pre)))
}
