// Runs as standard input tells them: a list of calls, which are made by one replay, and what comes of each.
use anyhow::anyhow;
use hash_state::HashState;
use image::place::Image;
use runs::call::{Answer, Call, Lent, Replayed, Stage, Trace};
use runs::fault::RunFault;
use runs::replay::replay;
use runs::run::RowRead;
use std::alloc::{AllocError, Global};

// What the work holds before a run or a column, so that words show that should have been cleared.
pub(crate) const UNCLEARED: u64 = 0x9e3779b97f4a7c15;

// What places for answers hold before a run. No call answers it, since a read counts a column at least.
const NO_ANSWER: Answer = Answer::Row(RowRead {
    number: UNCLEARED,
    count: 0,
});

#[derive(Clone, Copy, PartialEq, Eq, Debug)]
pub enum Reply {
    None,
    Accepted,
    Refused(u64),
    Row(u64, u64),
}

#[derive(Drop)]
pub enum Step {
    Column {
        image: usize,
        node: u64,
        list: Option<Vec<u32>>,
        lent: Lent,
    },
    Keep {
        list: Vec<u32>,
        lent: Lent,
    },
    Read {
        row: u64,
        entries: usize,
    },
}

// A call with its answer, and the line that has them.
#[derive(Drop)]
pub struct Scripted {
    pub line: u64,
    pub step: Step,
    pub reply: Reply,
}

#[derive(Drop)]
pub struct Script {
    pub rows: usize,
    pub work: usize,
    pub places: usize,
    pub entries: Vec<u64>,
    pub steps: Vec<Scripted>,
}

// What comes of a run: how many calls are made, or why it is refused; whether it has accepted a column; and the
// entries. Which words of the work stay is told by the calls and their answers.
#[derive(Drop)]
pub struct End {
    pub made: Result<usize, u64>,
    pub begun: bool,
    pub entries: Vec<u64>,
}

impl Script {
    // A run without rows and calls.
    pub(crate) fn new(heap: Global) -> Script {
        Script {
            rows: 0,
            work: 0,
            places: 0,
            entries: Vec::new(heap),
            steps: Vec::new(heap),
        }
    }
}

impl Reply {
    fn of(answer: Answer) -> Reply {
        match answer {
            Answer::Accepted => Reply::Accepted,
            Answer::Refused(fault) => Reply::Refused(u64::from(fault.number())),
            Answer::Row(row) if row.count == 0 && row.number == UNCLEARED => Reply::None,
            Answer::Row(row) => Reply::Row(row.number, u64::from(row.count)),
        }
    }
}

impl Step {
    // What its call is lent, unless it is a read, which is lent no work.
    fn lent(&self) -> Option<Lent> {
        match self {
            Step::Column { lent, .. } => Some(*lent),
            Step::Keep { lent, .. } => Some(*lent),
            Step::Read { .. } => None,
        }
    }

    fn call(&self) -> Call<'_> {
        match self {
            Step::Column {
                image,
                node,
                list,
                lent,
            } => Call::Column {
                image: *image,
                node: *node,
                list: list.as_deref(),
                lent: *lent,
            },
            Step::Keep { list, lent } => Call::Keep {
                list: list.as_slice(),
                lent: *lent,
            },
            Step::Read { row, entries } => Call::Read {
                row: *row,
                entries: *entries,
            },
        }
    }
}

fn calls_of(heap: Global, steps: &[Scripted]) -> Result<Vec<Call<'_>>, AllocError> {
    let mut calls = Vec::with_capacity(heap, steps.len())?;
    for scripted in steps {
        calls.push(scripted.step.call())?;
    }
    Ok(calls)
}

// Makes the calls of a script, and compares what comes of them. On an error `line` is the one that it is about.
pub(crate) fn check_run<'a, S: HashState>(
    heap: Global,
    state: &S,
    images: &'a [&'a Image<'a>],
    script: &Script,
    end: &End,
    line: &mut u64,
) -> anyhow::Result<()> {
    let calls = calls_of(heap, script.steps.as_slice())?;
    let mut entries = Vec::new(heap);
    entries.extend_from_slice(script.entries.as_slice())?;
    let mut work = vec![in heap; UNCLEARED; script.work]?;
    let mut answers = vec![in heap; NO_ANSWER; script.places]?;
    let trace = Trace {
        rows: script.rows,
        calls: calls.as_slice(),
        images,
    };
    let replayed = replay(
        trace,
        state,
        entries.as_mut_slice(),
        work.as_mut_slice(),
        answers.as_mut_slice(),
    );
    compare_answers(script.steps.as_slice(), answers.as_slice(), line)?;
    compare_end(replayed, end)?;
    compare_entries(entries.as_slice(), end.entries.as_slice())?;
    put_back(script.steps.as_slice(), work.as_mut_slice());
    let all = work.len();
    check_stays(work.as_slice(), all)
}

// Writes over the words that a call opened, so that all that are left have to be as they were: an accepted column or
// keep opens those that it was lent and that were not claimed, and no other call opens one.
fn put_back(steps: &[Scripted], work: &mut [u64]) {
    for scripted in steps {
        if let (Reply::Accepted, Some(lent)) = (scripted.reply, scripted.step.lent()) {
            let end = lent.work.min(work.len());
            let start = lent.claimed.min(end);
            work[start..end].fill(UNCLEARED);
        }
    }
}

// So many words at the front of the work are as they were.
pub(crate) fn check_stays(work: &[u64], words: usize) -> anyhow::Result<()> {
    if work.iter().take(words).any(|word| *word != UNCLEARED) {
        return Err(anyhow!("a word of the work has changed that has to stay"));
    }
    Ok(())
}

// A call without a place, or after the last that was made, has no answer; nor have places without a call.
fn compare_answers(steps: &[Scripted], answers: &[Answer], line: &mut u64) -> anyhow::Result<()> {
    let end = *line;
    for (j, scripted) in steps.iter().enumerate() {
        let answer = answers.get(j).copied().unwrap_or(NO_ANSWER);
        let reply = Reply::of(answer);
        if reply != scripted.reply {
            *line = scripted.line;
            return Err(anyhow!("call {j} has the answer {reply:?}"));
        }
    }
    if answers
        .iter()
        .skip(steps.len())
        .any(|answer| Reply::of(*answer) != Reply::None)
    {
        return Err(anyhow!("an answer without a call"));
    }
    Ok(())
}

fn compare_end(replayed: Result<Replayed, RunFault>, end: &End) -> anyhow::Result<()> {
    let (made, begun) = match replayed {
        Ok(replayed) => {
            let Replayed { stage, made } = replayed;
            (Ok(made), matches!(stage, Stage::Begun(_)))
        }
        Err(fault) => (Err(u64::from(fault.number())), false),
    };
    if made != end.made || begun != end.begun {
        return Err(anyhow!("it ended with {made:?}, begun: {begun}"));
    }
    Ok(())
}

fn compare_entries(entries: &[u64], expected: &[u64]) -> anyhow::Result<()> {
    if entries.len() != expected.len() {
        return Err(anyhow!("not so many entries"));
    }
    for (j, (entry, number)) in entries.iter().zip(expected).enumerate() {
        if *entry != *number {
            return Err(anyhow!("entry {j} is {entry:#x} and not {number:#x}"));
        }
    }
    Ok(())
}
