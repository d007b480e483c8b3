// What replay lends to the calls of a run.
ghost use Rattle.std.specs.Prelude.{◌≤◌, length};

use runs::account::WorkAccount;
use std::alloc::{AllocError, Global};

// Enough for a keep of as many rows as a run may have.
const WORK: usize = 1_048_576;

// Of the entries as many are lent as there is room for, and all of the work.
#[derive(Drop)]
pub struct Lending {
    pub(crate) entries: Vec<u64>,
    room: usize,
    pub(crate) work: Vec<u64>,
    pub(crate) account: WorkAccount,
}

impl Lending {
    pub(crate) fn new(heap: Global) -> Result<Lending, AllocError> {
        Ok(Lending {
            entries: Vec::new(heap),
            room: 0,
            work: vec![in heap; 0; WORK]?,
            account: WorkAccount { claimed: 0 },
        })
    }

    // Room for all of other entries.
    pub(crate) fn set_entries(&mut self, entries: Vec<u64>) {
        self.room = entries.len();
        self.entries = entries;
    }

    // Entries that were not there are zeros; those past the room stay, and may be lent again.
    pub(crate) fn set_room(&mut self, words: usize) -> Result<(), AllocError> {
        if words > self.entries.len() {
            self.entries.resize(words, 0)?;
        }
        self.room = words;
        Ok(())
    }

    // How many entries are lent.
    pub(crate) fn lent(&self) -> usize
        ensures { result ≤ length self.now.entries.items }
    {
        self.room.min(self.entries.len())
    }

    pub(crate) fn words(&self) -> &[u64] {
        &self.entries.as_slice()[..self.lent()]
    }
}
