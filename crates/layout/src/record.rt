// The record of a node: nine 32-bit numbers.
ghost use Rattle.std.specs.Prelude.{◌≡◌, ◌+◌, ◌*◌, ◌≤◌, length};
ghost use Rattle.layout.specs.Records.{elements, record_at};

use crate::bytes::Native;

// The fields in the order in which they stand, by their names in the format.
#[derive(Clone, Copy)]
pub struct Record {
    pub kind: u32,
    pub rows: u32,
    pub start: u32,
    pub nulls: u32,
    pub a: u32,
    pub b: u32,
    pub p: u32,
    pub tab: u32,
    pub cnt: u32,
}

impl Record {
    // The record of a node, which is inside.
    pub fn read(bytes: &[u8], node: usize) -> Record
        requires { 4 + 36 * node + 36 ≤ length bytes.now }
        ensures { result ≡ record_at bytes.now node }
    {
        let place = 4 + 36 * node;
        Record {
            kind: u32::load(bytes, place),
            rows: u32::load(bytes, place + 4),
            start: u32::load(bytes, place + 8),
            nulls: u32::load(bytes, place + 12),
            a: u32::load(bytes, place + 16),
            b: u32::load(bytes, place + 20),
            p: u32::load(bytes, place + 24),
            tab: u32::load(bytes, place + 28),
            cnt: u32::load(bytes, place + 32),
        }
    }

    // How many elements a node's buffers have, those before its first row and its rows.
    pub fn elements(&self) -> u64
        ensures { result ≡ elements self.now }
    {
        u64::from(self.start) + u64::from(self.rows)
    }
}
