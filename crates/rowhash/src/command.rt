// The commands of replay.
use crate::numbers::{last_number, next_number};
use crate::run_command::RunCommand;
use std::alloc::{AllocError, Global};
use std::str::SplitAsciiWhitespace;
use text::hex_bytes;

#[derive(Drop)]
pub enum Command<'a> {
    Image(Vec<u8>),
    ImageFile(&'a str),
    Slot(u64, u64),
    Run(RunCommand),
}

impl<'a> Command<'a> {
    // The command of a line, or none where it is not understood. Blanks part words, and a path may have some within it.
    // No `FromStr`: an image's bytes and lists need the heap.
    pub(crate) fn parse(heap: Global, line: &'a str) -> Result<Option<Command<'a>>, AllocError> {
        let line = line.trim_ascii();
        let (name, rest) = line.split_once([' ', '\t']).unwrap_or((line, ""));
        let rest = rest.trim_ascii_start();
        match name {
            "image" => parse_image(heap, rest),
            "image-file" => Ok((!rest.is_empty()).then_some(Command::ImageFile(rest))),
            "slot" => Ok(parse_slot(rest.split_ascii_whitespace())),
            _ => parse_run(heap, name, rest),
        }
    }
}

// No `map` here and below: of a function whose result names a lifetime of its own there is no proof.
fn parse_image(heap: Global, digits: &str) -> Result<Option<Command<'_>>, AllocError> {
    let Some(bytes) = hex_bytes(heap, digits.as_bytes())? else {
        return Ok(None);
    };
    Ok(Some(Command::Image(bytes)))
}

fn parse_slot(mut words: SplitAsciiWhitespace<'_>) -> Option<Command<'_>> {
    let node = next_number(&mut words)?;
    let row = last_number(words)?;
    Some(Command::Slot(node, row))
}

fn parse_run<'a>(
    heap: Global,
    name: &str,
    words: &'a str,
) -> Result<Option<Command<'a>>, AllocError> {
    let Some(command) = RunCommand::parse(heap, name, words.split_ascii_whitespace())? else {
        return Ok(None);
    };
    Ok(Some(Command::Run(command)))
}
