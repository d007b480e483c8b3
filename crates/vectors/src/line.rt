// The lines of standard input; tests/columns.py and tests/scripts.py write them, and say what they are.
use crate::script::{End, Reply, Script, Scripted, Step};
use hash_state::{Fnv1aState, SipHashState};
use runs::call::Lent;
use std::alloc::{AllocError, Global};
use std::str::from_utf8;
use text::{hex_bytes, number};

// The hash state of the lines that follow.
#[derive(Clone, Copy)]
pub enum State {
    Fnv1a(Fnv1aState),
    SipHash(SipHashState),
}

// The numbers of a column's rows, or of those in a list; row j has the entry `entry` + j modulo 2^64.
#[derive(Drop)]
pub struct Question {
    pub first: bool,
    pub node: u64,
    pub entry: u64,
    pub list: Option<Vec<u32>>,
    pub numbers: Vec<u64>,
}

#[derive(Drop)]
pub enum Line {
    PassedOver,
    Images(Vec<Vec<u8>>),
    State(State),
    Column(Question),
    Run(Script),
    Call(Scripted),
    End(End),
}

impl Line {
    // What a line says, or none where it is not understood.
    pub(crate) fn parse(heap: Global, line: &[u8]) -> Result<Option<Line>, AllocError> {
        let Ok(text) = from_utf8(line) else {
            return Ok(None);
        };
        let (name, rest) = text.split_once(' ').unwrap_or((text, ""));
        match name {
            "" | "#" => Ok(Some(Line::PassedOver)),
            "image" => parse_images(heap, rest),
            "fnv1a" => Ok(parse_fnv1a(rest)),
            "siphash" => Ok(parse_siphash(rest)),
            "first" => parse_column(heap, true, rest),
            "later" => parse_column(heap, false, rest),
            "run" => parse_run(heap, rest),
            "column" | "keep" | "read" => parse_call(heap, name, rest),
            "end" => parse_end(heap, rest),
            _ => Ok(None),
        }
    }
}

// An image for each word; `-` for a place that no image was put into.
fn parse_images(heap: Global, words: &str) -> Result<Option<Line>, AllocError> {
    let mut images = Vec::new(heap);
    for word in words.split_ascii_whitespace() {
        let digits = if word == "-" { "" } else { word };
        let Some(bytes) = hex_bytes(heap, digits.as_bytes())? else {
            return Ok(None);
        };
        images.push(bytes)?;
    }
    Ok(Some(Line::Images(images)))
}

fn parse_fnv1a(start: &str) -> Option<Line> {
    let start = number(start.as_bytes())?;
    Some(Line::State(State::Fnv1a(Fnv1aState::from_start(start))))
}

fn parse_siphash(words: &str) -> Option<Line> {
    let (k0, k1) = words.split_once(' ')?;
    let k0 = number(k0.as_bytes())?;
    let k1 = number(k1.as_bytes())?;
    Some(Line::State(State::SipHash(SipHashState::new(k0, k1))))
}

// The number that a text begins with, and what stands after it.
fn split_number(words: &str) -> Option<(u64, &str)> {
    let (word, rest) = words.split_once(' ').unwrap_or((words, ""));
    Some((number(word.as_bytes())?, rest))
}

// The node, the entry, a list if there is one, and the numbers.
fn parse_column(heap: Global, first: bool, words: &str) -> Result<Option<Line>, AllocError> {
    let Some((node, entry, rest)) = parse_column_words(words) else {
        return Ok(None);
    };
    let (list, rest) = match rest.strip_prefix("list") {
        None => (None, rest),
        Some(rest) => {
            let Some((rows, rest)) = rest.split_once('=') else {
                return Ok(None);
            };
            let Some(list) = parse_rows(heap, rows)? else {
                return Ok(None);
            };
            (Some(list), rest)
        }
    };
    let Some(numbers) = parse_numbers(heap, rest)? else {
        return Ok(None);
    };
    Ok(Some(Line::Column(Question {
        first,
        node,
        entry,
        list,
        numbers,
    })))
}

// The two numbers that each column has, and what stands after them.
fn parse_column_words(words: &str) -> Option<(u64, u64, &str)> {
    let (node, rest) = split_number(words)?;
    let (entry, rest) = split_number(rest)?;
    Some((node, entry, rest))
}

// A number, and how often it stands there: `N` once, `N*COUNT` so many times.
fn parse_repeated(word: &str) -> Option<(u64, u64)> {
    let Some((word, count)) = word.split_once('*') else {
        return Some((number(word.as_bytes())?, 1));
    };
    Some((number(word.as_bytes())?, number(count.as_bytes())?))
}

fn parse_numbers(heap: Global, words: &str) -> Result<Option<Vec<u64>>, AllocError> {
    let mut numbers = Vec::new(heap);
    for word in words.split_ascii_whitespace() {
        let Some((number, count)) = parse_repeated(word) else {
            return Ok(None);
        };
        push_numbers(&mut numbers, number, count)?;
    }
    Ok(Some(numbers))
}

fn push_numbers(numbers: &mut Vec<u64>, number: u64, count: u64) -> Result<(), AllocError> {
    for _ in 0..count {
        numbers.push(number)?;
    }
    Ok(())
}

// The same of 32 bits.
fn parse_rows(heap: Global, words: &str) -> Result<Option<Vec<u32>>, AllocError> {
    let Some(numbers) = parse_numbers(heap, words)? else {
        return Ok(None);
    };
    let mut rows = Vec::new(heap);
    for number in numbers.as_slice() {
        let Ok(row) = u32::try_from(*number) else {
            return Ok(None);
        };
        rows.push(row)?;
    }
    Ok(Some(rows))
}

// The rows that are asked of begin, the words of work, the places for answers, and the entries.
fn parse_run(heap: Global, words: &str) -> Result<Option<Line>, AllocError> {
    let Some((rows, work, places, rest)) = parse_run_words(words) else {
        return Ok(None);
    };
    let Some(entries) = parse_numbers(heap, rest)? else {
        return Ok(None);
    };
    Ok(Some(Line::Run(Script {
        rows,
        work,
        places,
        entries,
        steps: Vec::new(heap),
    })))
}

fn parse_run_words(words: &str) -> Option<(usize, usize, usize, &str)> {
    let (rows, rest) = split_number(words)?;
    let (work, rest) = split_number(rest)?;
    let (places, rest) = split_number(rest)?;
    Some((rows as usize, work as usize, places as usize, rest))
}

// What is called, and what is answered to it.
fn parse_call(heap: Global, name: &str, words: &str) -> Result<Option<Line>, AllocError> {
    let Some((call, reply)) = words.split_once(" = ") else {
        return Ok(None);
    };
    let Some(reply) = parse_reply(reply) else {
        return Ok(None);
    };
    let step = match name {
        "column" => parse_column_step(heap, call)?,
        "keep" => parse_keep_step(heap, call)?,
        _ => parse_read_step(call),
    };
    let Some(step) = step else {
        return Ok(None);
    };
    Ok(Some(Line::Call(Scripted {
        line: 0,
        step,
        reply,
    })))
}

fn parse_reply(words: &str) -> Option<Reply> {
    let (name, rest) = words.split_once(' ').unwrap_or((words, ""));
    match name {
        "none" => Some(Reply::None),
        "accepted" => Some(Reply::Accepted),
        "refused" => Some(Reply::Refused(number(rest.as_bytes())?)),
        _ => {
            let (number, count) = split_number(words)?;
            Some(Reply::Row(number, split_number(count)?.0))
        }
    }
}

// The words that are lent, and what stands after them.
fn parse_lent(words: &str) -> Option<(Lent, &str)> {
    let (entries, rest) = split_number(words)?;
    let (work, rest) = split_number(rest)?;
    let (claimed, rest) = split_number(rest)?;
    let lent = Lent {
        entries: entries as usize,
        work: work as usize,
        claimed: claimed as usize,
    };
    Some((lent, rest))
}

fn parse_column_step(heap: Global, words: &str) -> Result<Option<Step>, AllocError> {
    let Some((image, node, rest)) = parse_column_words(words) else {
        return Ok(None);
    };
    let Some((lent, rest)) = parse_lent(rest) else {
        return Ok(None);
    };
    let list = match rest.strip_prefix("list") {
        None => None,
        Some(rows) => {
            let Some(list) = parse_rows(heap, rows)? else {
                return Ok(None);
            };
            Some(list)
        }
    };
    Ok(Some(Step::Column {
        image: image as usize,
        node,
        list,
        lent,
    }))
}

fn parse_keep_step(heap: Global, words: &str) -> Result<Option<Step>, AllocError> {
    let Some((lent, rest)) = parse_lent(words) else {
        return Ok(None);
    };
    let Some(rows) = rest.strip_prefix("list") else {
        return Ok(None);
    };
    let Some(list) = parse_rows(heap, rows)? else {
        return Ok(None);
    };
    Ok(Some(Step::Keep { list, lent }))
}

fn parse_read_step(words: &str) -> Option<Step> {
    let (row, rest) = split_number(words)?;
    let (entries, _) = split_number(rest)?;
    Some(Step::Read {
        row,
        entries: entries as usize,
    })
}

// How a run ends: the calls that were made or why there are none, and the words that are then in the entries.
fn parse_end(heap: Global, words: &str) -> Result<Option<Line>, AllocError> {
    let Some((made, begun, rest)) = parse_end_words(words) else {
        return Ok(None);
    };
    let Some(entries) = parse_numbers(heap, rest)? else {
        return Ok(None);
    };
    Ok(Some(Line::End(End {
        made,
        begun,
        entries,
    })))
}

fn parse_end_words(words: &str) -> Option<(Result<usize, u64>, bool, &str)> {
    let (name, rest) = words.split_once(' ')?;
    let (made, rest) = split_number(rest)?;
    match name {
        "new" => Some((Ok(made as usize), false, rest)),
        "begun" => Some((Ok(made as usize), true, rest)),
        "refused" => Some((Err(made), false, rest)),
        _ => None,
    }
}
