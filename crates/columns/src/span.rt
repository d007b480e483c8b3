// Rows one after the other: the first of them, and how many.
#[derive(Clone, Copy)]
pub(crate) struct Span {
    pub from: u32,
    pub size: u32,
}
