// The commands of replay that are about a run.
use crate::numbers::{all_numbers, all_rows, last_number, next_number};
use crate::state::ChosenState;
use std::alloc::{AllocError, Global};
use std::str::SplitAsciiWhitespace;

// The most words of entries or of work that can be lent, 128 MiB: no call asks for more. A run has at most 1,048,576
// rows, and below a column stand at most 15 levels of nodes, each of at most 1,048,576 rows.
const MAX_WORDS: u64 = 1 << 24;

#[derive(Drop)]
pub enum RunCommand {
    State(ChosenState),
    Work(usize),
    Claimed(u64),
    Begin(Vec<u64>),
    Room(usize),
    Column(u64, Option<Vec<u32>>),
    Keep(Vec<u32>),
    Read(u64),
    Words,
}

impl RunCommand {
    // The command of a name and the words behind it, or none where it is not understood.
    pub(crate) fn parse(
        heap: Global,
        name: &str,
        mut words: SplitAsciiWhitespace<'_>,
    ) -> Result<Option<RunCommand>, AllocError> {
        let command = match name {
            "state" => ChosenState::parse(words).map(RunCommand::State),
            "work" => parse_count(words).map(RunCommand::Work),
            "claimed" => last_number(words).map(RunCommand::Claimed),
            "begin" => all_numbers(heap, words)?.map(RunCommand::Begin),
            "room" => parse_count(words).map(RunCommand::Room),
            "column" => parse_column(heap, words)?,
            "keep" => all_rows(heap, words)?.map(RunCommand::Keep),
            "read" => last_number(words).map(RunCommand::Read),
            "words" => words.next().is_none().then_some(RunCommand::Words),
            _ => None,
        };
        Ok(command)
    }
}

// How many words are lent.
fn parse_count(words: SplitAsciiWhitespace<'_>) -> Option<usize> {
    let count = last_number(words)?;
    (count <= MAX_WORDS).then_some(count as usize)
}

// A node, and a list of its rows where one is brought.
fn parse_column(
    heap: Global,
    mut words: SplitAsciiWhitespace<'_>,
) -> Result<Option<RunCommand>, AllocError> {
    let Some(node) = next_number(&mut words) else {
        return Ok(None);
    };
    match words.next() {
        None => Ok(Some(RunCommand::Column(node, None))),
        Some("list") => {
            let list = all_rows(heap, words)?;
            Ok(list.map(|rows| RunCommand::Column(node, Some(rows))))
        }
        Some(_) => Ok(None),
    }
}
