// The run that the commands of replay are about.
use crate::answer::Answer;
use crate::lending::Lending;
use crate::stage::Stage;
use crate::state::ChosenState;
use columns::Selection;
use hash_state::{Fnv1aState, HashState};
use runs::run::NewRun;
use std::alloc::{AllocError, Global};
use std::mem::replace;

// It goes on from image to image: only its columns ask of one.
#[derive(Drop)]
pub struct Run {
    state: ChosenState,
    stage: Stage,
    lending: Lending,
}

impl Run {
    pub(crate) fn new(heap: Global) -> Result<Run, AllocError> {
        Ok(Run {
            state: ChosenState::Fnv1a(Fnv1aState::new()),
            stage: Stage::Absent,
            lending: Lending::new(heap)?,
        })
    }

    // Ends the run: all columns of a run are under one state.
    pub(crate) fn set_state(&mut self, state: ChosenState) -> Answer {
        self.state = state;
        self.stage = Stage::Absent;
        Answer::Set
    }

    pub(crate) fn set_work(&mut self, heap: Global, words: usize) -> Result<Answer, AllocError> {
        self.lending.work = vec![in heap; 0; words]?;
        Ok(Answer::Set)
    }

    pub(crate) fn set_claimed(&mut self, words: u64) -> Answer {
        self.lending.account.claimed = words as usize;
        Answer::Set
    }

    // A refusal leaves the run that was there, with its entries.
    pub(crate) fn begin(&mut self, entries: Vec<u64>) -> Answer {
        match NewRun::begin(entries.as_slice()) {
            Ok(run) => {
                self.stage = Stage::New(run);
                self.lending.set_entries(entries);
                Answer::Accepted
            }
            Err(fault) => Answer::Refused(fault),
        }
    }

    pub(crate) fn set_room(&mut self, words: usize) -> Result<Answer, AllocError> {
        if let Stage::Absent = self.stage {
            return Ok(Answer::NoRun);
        }
        self.lending.set_room(words)?;
        Ok(Answer::Set)
    }

    pub(crate) fn column(&mut self, selection: Selection<'_>) -> Answer {
        match self.state {
            ChosenState::Fnv1a(state) => self.column_under(selection, &state),
            ChosenState::SipHash(state) => self.column_under(selection, &state),
        }
    }

    fn column_under<S: HashState>(&mut self, selection: Selection<'_>, state: &S) -> Answer {
        let stage = replace(&mut self.stage, Stage::Absent);
        let (stage, answer) = stage.column(selection, state, &mut self.lending);
        self.stage = stage;
        answer
    }

    pub(crate) fn keep(&mut self, list: &[u32]) -> Answer {
        self.stage.keep(list, &mut self.lending)
    }

    pub(crate) fn read(&self, row: u64) -> Answer {
        self.stage.read(row, self.lending.words())
    }

    // The lent entries, or none where there is no run.
    pub(crate) fn words(&self) -> Option<&[u64]> {
        match self.stage {
            Stage::Absent => None,
            _ => Some(self.lending.words()),
        }
    }
}
