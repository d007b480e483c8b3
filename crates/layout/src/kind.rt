// The kinds of columns, and their numbers.
ghost use Rattle.std.specs.Prelude.{◌≡◌};
ghost use Rattle.layout.specs.Types.{kind_number};

// What KIND says of a column, and nothing of what P and B say. Each case has its number, which is the KIND of a record;
// 5 is none.
#[derive(Clone, Copy)]
pub enum Kind {
    Null = 1,
    Boolean = 2,
    Number = 3,
    Float = 4,
    Utf8 = 6,
    Binary = 7,
    FixedSizeBinary = 8,
    View = 9,
    Dictionary = 10,
    Struct = 11,
    List = 12,
    ListView = 13,
    Map = 14,
    FixedSizeList = 15,
    RunEnd = 16,
}

impl Kind {
    // Its number: the KIND of a record.
    pub fn number(self) -> u32
        ensures { result ≡ kind_number self }
    {
        self as u32
    }
}
