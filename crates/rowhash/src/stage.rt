// How far a run has come.
use crate::answer::Answer;
use crate::lending::Lending;
use columns::Selection;
use hash_state::HashState;
use runs::run::{BegunRun, NewRun};

// A new run and a begun one are two types: which of them it is, is known only as commands are read.
#[derive(Drop)]
pub enum Stage {
    Absent,
    New(NewRun),
    Begun(BegunRun),
}

impl Stage {
    // A first column that is accepted moves the run on; a refusal gives it back.
    pub(crate) fn column<S: HashState>(
        self,
        selection: Selection<'_>,
        state: &S,
        lending: &mut Lending,
    ) -> (Stage, Answer) {
        let lent = lending.lent();
        let entries = &mut lending.entries.as_mut_slice()[..lent];
        let work = lending.work.as_mut_slice();
        let account = &mut lending.account;
        match self {
            Stage::Absent => (Stage::Absent, Answer::NoRun),
            Stage::New(run) => match run.column(selection, state, entries, work, account) {
                Ok(run) => (Stage::Begun(run), Answer::Accepted),
                Err(back) => {
                    let (run, fault) = back;
                    (Stage::New(run), Answer::Refused(fault))
                }
            },
            Stage::Begun(mut run) => {
                let outcome = run.column(selection, state, entries, work, account);
                (Stage::Begun(run), Answer::of(outcome))
            }
        }
    }

    pub(crate) fn keep(&mut self, list: &[u32], lending: &mut Lending) -> Answer {
        let lent = lending.lent();
        let entries = &mut lending.entries.as_mut_slice()[..lent];
        let work = lending.work.as_mut_slice();
        let account = &mut lending.account;
        match self {
            Stage::Absent => Answer::NoRun,
            Stage::New(run) => Answer::of(run.keep(list, entries, work, account)),
            Stage::Begun(run) => Answer::of(run.keep(list, entries, work, account)),
        }
    }

    pub(crate) fn read(&self, row: u64, entries: &[u64]) -> Answer {
        match self {
            Stage::Absent => Answer::NoRun,
            Stage::New(_) => Answer::NoColumn,
            Stage::Begun(run) => match run.read(row, entries) {
                Ok(read) => Answer::Row(read),
                Err(fault) => Answer::Refused(fault),
            },
        }
    }
}
