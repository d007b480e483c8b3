// A list of calls of one run, and what is answered to them.
use crate::fault::RunFault;
use crate::run::{BegunRun, NewRun, RowRead};
use image::place::Image;

// What a call is lent: the first `entries` words of the entries and the first `work` words of the work, all of them
// where there are fewer; the first `claimed` words of the work are in use by others. Any numbers will do.
#[derive(Clone, Copy)]
pub struct Lent {
    pub entries: usize,
    pub work: usize,
    pub claimed: usize,
}

// A call as a value. A column names its image by its place among a trace's images, from 0; at a place that is not there
// stands the empty image, which has no nodes. A read asks for a row by its place from 0, and is lent entries alone, so
// many words of them.
#[derive(Clone, Copy)]
pub enum Call<'a> {
    Column {
        image: usize,
        node: u64,
        list: Option<&'a [u32]>,
        lent: Lent,
    },
    Keep {
        list: &'a [u32],
        lent: Lent,
    },
    Read {
        row: u64,
        entries: usize,
    },
}

// What is answered to a call: an accepted column or keep says nothing else, an accepted read has the row's number and
// the count of columns.
#[derive(Clone, Copy)]
pub enum Answer {
    Accepted,
    Refused(RunFault),
    Row(RowRead),
}

// A run that is new or begun, as is told at run time alone.
#[derive(Drop)]
pub enum Stage {
    New(NewRun),
    Begun(BegunRun),
}

// Begin takes the first `rows` words of the entries, or all of them where there are fewer; then come the calls, in
// order, whose images are counted in `images`.
#[derive(Clone, Copy)]
pub struct Trace<'a, 'i> {
    pub rows: usize,
    pub calls: &'a [Call<'a>],
    pub images: &'i [&'i Image<'i>],
}

// How many calls of a trace were made, and the run after them: fewer than all where there are no more places for
// answers, and where the next call reads a run without a column.
#[derive(Drop)]
pub struct Replayed {
    pub stage: Stage,
    pub made: usize,
}
