// Why the program ends with status 1.
use admission::fault::ImageFault;
use runs::fault::RunFault;
use std::alloc::AllocError;
use std::{fmt, io};
use thiserror::Error;

// What of an io::Error has no case of its own is of a standard stream.
#[derive(Debug, Drop, Error)]
pub enum Failure {
    #[error("no command is given")]
    NoCommand,
    #[error("{0}: no such command (rowhash help lists them)")]
    UnknownCommand(String),
    #[error("no file is given")]
    NoFile,
    #[error("{0}: one argument too many")]
    TooManyArguments(String),
    #[error("{0}: not the number of a node")]
    NoNumber(String),
    #[error("{0}: cannot be read: {1}")]
    Unreadable(String, io::Error),
    #[error("{0}: {1}")]
    Refused(String, Refusal),
    #[error("{0}: no node {1}: the image has {2}, counted from 0")]
    NoNode(String, u64, u32),
    #[error("{0}: node {1}: {2}")]
    Column(String, u64, ColumnRefusal),
    #[error("--state: no hash state is given")]
    NoState,
    #[error("{0}: no such hash state (fnv1a, fnv1a:START or siphash:K0:K1)")]
    UnknownState(String),
    #[error("out of memory")]
    Memory(#[from] AllocError),
    #[error("the arguments cannot be read: {0}")]
    Arguments(io::Error),
    #[error("standard input or output: {0}")]
    Stream(#[from] io::Error),
}

// An image that is refused, in words.
#[derive(Clone, Copy, Debug)]
pub struct Refusal(pub ImageFault);

impl fmt::Display for Refusal {
    fn fmt<W: fmt::Write>(&self, f: &mut fmt::Formatter<W>) -> fmt::Result {
        let (number, node) = self.0.numbered();
        write!(f, "refused {number} at node {node}: {}", self.reason())
    }
}

impl Refusal {
    // What is wrong with the image.
    fn reason(self) -> &'static str {
        match self.0 {
            ImageFault::Header =>
                "it is too short or too long for an image, or has no node or more than 256",
            ImageFault::Kind(_) => "there is no such column type, or not with such a width",
            ImageFault::Length(_) =>
                "it has more than 1048576 rows, or starts after more than 1048576",
            ImageFault::Table(_) =>
                "the number of its children or data buffers is not allowed, or their list is not wholly inside the image",
            ImageFault::Child(_) => "a child is not a later node of the image",
            ImageFault::Height(_) => "more than 16 levels of nodes stand on each other",
            ImageFault::Buffer(_) => "a buffer is not wholly inside the image",
            ImageFault::Order(_) =>
                "an offset is negative or below the one before it, or run ends do not rise from above 0",
            ImageFault::Reach(_) => "a row reaches a child row or a byte that is not there",
            ImageFault::View(_) =>
                "a view's padding is not zero, or its prefix is not how its bytes begin",
        }
    }
}

// A column that is refused, in words.
#[derive(Clone, Copy, Debug)]
pub struct ColumnRefusal(pub RunFault);

impl fmt::Display for ColumnRefusal {
    fn fmt<W: fmt::Write>(&self, f: &mut fmt::Formatter<W>) -> fmt::Result {
        write!(f, "refused {}: {}", self.0.number(), self.reason())
    }
}

impl ColumnRefusal {
    // Of a run that is lent enough of both only 12, 13 and 14 can be.
    fn reason(self) -> &'static str {
        match self.0 {
            RunFault::Entries => "there are fewer entries than rows",
            RunFault::Columns => "255 columns are hashed already",
            RunFault::Node => "the image has no such node",
            RunFault::Length => "it has not as many rows as the first column",
            RunFault::Listed => "a list names a row that is not there",
            RunFault::Work => "there is too little work",
            RunFault::Row => "there is no such row",
        }
    }
}
