// What the program is asked to do.
use crate::failure::Failure;
use crate::state::ChosenState;
use hash_state::Fnv1aState;
use std::alloc::{AllocError, Global};
use std::env::Args;
use text::number;

#[derive(Drop)]
pub enum Invocation {
    Help,
    Version,
    Hash(String, Vec<u64>, ChosenState),
    Show(String, Option<u64>),
    Replay,
}

impl Invocation {
    // The program's own name comes first. No `TryFrom`: arguments are read one after the other, and used up.
    pub(crate) fn parse(heap: Global, mut args: Args) -> Result<Invocation, Failure> {
        let _ = args.next();
        let command = args.next().ok_or(Failure::NoCommand)?;
        let invocation = match command.as_str() {
            "help" | "--help" | "-h" => Invocation::Help,
            "--version" => Invocation::Version,
            "replay" => Invocation::Replay,
            "hash" => parse_hash(heap, &mut args)?,
            "show" => parse_show(&mut args)?,
            _ => return Err(Failure::UnknownCommand(command)),
        };
        if let Some(word) = args.next() {
            return Err(Failure::TooManyArguments(word));
        }
        Ok(invocation)
    }
}

// An image's file and nodes of it, node 0 if none is named; the state may be chosen before them or behind.
fn parse_hash(heap: Global, args: &mut Args) -> Result<Invocation, Failure> {
    let mut path = None;
    let mut nodes = Vec::new(heap);
    let mut state = ChosenState::Fnv1a(Fnv1aState::new());
    let mut chooses = false;
    for word in args {
        if chooses {
            state = parse_state(word)?;
            chooses = false;
        } else if word.as_str() == "--state" {
            chooses = true;
        } else if path.is_none() {
            path = Some(word);
        } else {
            nodes.push(parse_node(word)?).map_err(AllocError::from)?;
        }
    }
    if chooses {
        return Err(Failure::NoState);
    }
    if nodes.is_empty() {
        nodes.push(0).map_err(AllocError::from)?;
    }
    Ok(Invocation::Hash(path.ok_or(Failure::NoFile)?, nodes, state))
}

fn parse_state(word: String) -> Result<ChosenState, Failure> {
    ChosenState::parse_argument(word.as_str()).ok_or(Failure::UnknownState(word))
}

fn parse_show(args: &mut Args) -> Result<Invocation, Failure> {
    let path = args.next().ok_or(Failure::NoFile)?;
    let node = args.next().map(parse_node).transpose()?;
    Ok(Invocation::Show(path, node))
}

fn parse_node(word: String) -> Result<u64, Failure> {
    number(word.as_bytes()).ok_or(Failure::NoNumber(word))
}
