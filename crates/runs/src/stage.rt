// Calls of a run that is new or begun.
ghost use Rattle.std.specs.Prelude.{◌≡◌, length};
ghost use Rattle.columns.specs.Open.{OthersStay};
ghost use Rattle.runs.specs.Agreement.{EachHash};
ghost use Rattle.runs.specs.Calls.{Answered, reply_of, stage_run};
ghost use Rattle.runs.specs.Open.{opens};
ghost use Rattle.runs.specs.Requests.{keep, read};
ghost use Rattle.runs.specs.Runs.{asked, done_reply, lent};
ghost use Rattle.runs.specs.State.{step, told};

use crate::account::WorkAccount;
use crate::call::{Answer, Stage};
use crate::fault::RunFault;
use columns::Selection;
use hash_state::HashState;

impl Answer {
    fn done(done: Result<(), RunFault>) -> Answer
        ensures { reply_of result ≡ done_reply done }
    {
        match done {
            Ok(()) => Answer::Accepted,
            Err(fault) => Answer::Refused(fault),
        }
    }
}

impl Stage {
    // A first column or a later one, as the run is new or begun.
    pub(crate) fn column<S: HashState>(
        self,
        selection: Selection<'_>,
        state: &S,
        entries: &mut [u64],
        work: &mut [u64],
        account: &mut WorkAccount,
    ) -> (Stage, Answer)
        ensures answer { reply_of result.1 ≡ told (stage_run self entries.old) (asked selection.entry entries.old work.old account.old) }
        ensures state { stage_run result.0 entries.new ≡ step (S.BuildHasher.one state.now) (S.HashState.seeded state.now) (stage_run self entries.old) (asked selection.entry entries.old work.old account.old) }
        ensures work { OthersStay (opens (asked selection.entry entries.old work.old account.old) (reply_of result.1)) work.old work.new }
    {
        match self {
            Stage::New(run) => match run.column(selection, state, entries, work, account) {
                Ok(run) => (Stage::Begun(run), Answer::Accepted),
                Err(back) => {
                    let (run, fault) = back;
                    (Stage::New(run), Answer::Refused(fault))
                }
            },
            Stage::Begun(mut run) => {
                let answer = Answer::done(run.column(selection, state, entries, work, account));
                (Stage::Begun(run), answer)
            }
        }
    }

    // A keep of either.
    pub(crate) fn keep(
        self,
        list: &[u32],
        entries: &mut [u64],
        work: &mut [u64],
        account: &mut WorkAccount,
    ) -> (Stage, Answer)
        ensures answer { reply_of result.1 ≡ told (stage_run self entries.old) (keep list.now (lent entries.old work.old account.old)) }
        ensures state { EachHash (λ ONE SEED. stage_run result.0 entries.new ≡ step ONE SEED (stage_run self entries.old) (keep list.now (lent entries.old work.old account.old))) }
        ensures work { OthersStay (opens (keep list.now (lent entries.old work.old account.old)) (reply_of result.1)) work.old work.new }
    {
        match self {
            Stage::New(mut run) => {
                let answer = Answer::done(run.keep(list, entries, work, account));
                (Stage::New(run), answer)
            }
            Stage::Begun(mut run) => {
                let answer = Answer::done(run.keep(list, entries, work, account));
                (Stage::Begun(run), answer)
            }
        }
    }

    // None on a run that has accepted no column.
    pub(crate) fn read(&self, row: u64, entries: &[u64]) -> Option<Answer>
        ensures { Answered (stage_run self.now entries.now) (read row (length entries.now)) result }
    {
        match self {
            Stage::New(_) => None,
            Stage::Begun(run) => match run.read(row, entries) {
                Ok(read) => Some(Answer::Row(read)),
                Err(fault) => Some(Answer::Refused(fault)),
            },
        }
    }
}
