// Why a call is refused.
ghost use Rattle.std.specs.Prelude.{◌≡◌};
ghost use Rattle.runs.specs.Runs.{fault_number};

// Why a call of a run is refused: of the reasons that apply, the one of the least number. Nothing has changed then.
#[derive(Clone, Copy, Debug, PartialEq, Eq)]
pub enum RunFault {
    // Entries are fewer than the run's rows, or at begin more than 1,048,576.
    Entries,
    // The run has accepted 255 columns.
    Columns,
    // The image has no such node.
    Node,
    // A column's rows, or its list's, are not as many as the run's; or a keep list is longer than the entries or
    // 1,048,576.
    Length,
    // A list names a row that is not there.
    Listed,
    // The unclaimed work is smaller than the need.
    Work,
    // The row asked for is not there.
    Row,
}

impl RunFault {
    // The number of the refusal, 11 to 17.
    pub fn number(self) -> u8
        ensures { result ≡ fault_number self }
    {
        match self {
            RunFault::Entries => 11,
            RunFault::Columns => 12,
            RunFault::Node => 13,
            RunFault::Length => 14,
            RunFault::Listed => 15,
            RunFault::Work => 16,
            RunFault::Row => 17,
        }
    }
}
