// A run: a row for each entry, led from word to word by columns.
ghost use Rattle.std.specs.Prelude.{◌≤◌};
ghost use Rattle.runs.specs.Refusals.{most_rows};

// A run that has accepted no column: at most 1,048,576 rows, whose words are the caller's. It is made by `begin`, may
// be kept any number of times, and ends in its first column, which gives a `BegunRun`.
#[derive(Drop)]
pub struct NewRun {
    pub(crate) rows: u32,
    ghost bounded: { rows ≤ most_rows },
}

// A run that has accepted 1 to 255 columns, of at most 1,048,576 rows. It is made by a first column alone, and takes
// columns, keeps and reads.
#[derive(Drop)]
pub struct BegunRun {
    pub(crate) rows: u32,
    pub(crate) count: u8,
    ghost begun: { 1 ≤ count },
    ghost bounded: { rows ≤ most_rows },
}

// What a read answers: a row's number, which is its word of the entries, and how many columns the run has accepted, 1
// to 255.
#[derive(Clone, Copy)]
pub struct RowRead {
    pub number: u64,
    pub count: u8,
}

// How many rows a run has, and how many columns it has accepted, none if it is new: one function leads the rows of
// both.
#[derive(Clone, Copy)]
pub(crate) struct Shape {
    pub rows: u32,
    pub count: u8,
}
