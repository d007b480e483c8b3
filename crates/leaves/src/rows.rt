// Which rows entries meet.

// The rows that entries meet in order: those that a list names, one for each entry, or without a list those from `lo` on.
// With a list `lo` is not read.
#[derive(Clone, Copy)]
pub struct Rows<'a> {
    pub lo: u32,
    pub list: Option<&'a [u32]>,
}
