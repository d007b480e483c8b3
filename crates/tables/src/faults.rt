// The refusals of images, by docs/FORMAT.md.
ghost use Rattle.std.specs.Prelude.{◌≡◌, true};
ghost use Rattle.tables.specs.Faults.{Borders, ChildNumbers, Entries, FaultNumbers, FirstFaults, Heights, ImageSizes, Lengths};
ghost use Rattle.tables.specs.Reach.{Bitmaps, Buffers, ChildRowsReached, Keys, ListViews, Offsets, OffsetsFromStart, RunEnds, Runs, Texts, Views};

// Sizes, lengths, tables, children and heights are refused at the limits of the format, and the first of two faults is answered.
pub fn faults_hold() -> bool
    ensures answer { result ≡ true }
    ensures sizes { ImageSizes }
    ensures lengths { Lengths }
    ensures entries { Entries }
    ensures borders { Borders }
    ensures children { ChildNumbers }
    ensures heights { Heights }
    ensures numbers { FaultNumbers }
    ensures first { FirstFaults }
{
    true
}

// Buffers, orders, reaches and views are refused at the limits of the format.
pub fn reach_holds() -> bool
    ensures answer { result ≡ true }
    ensures buffers { Buffers }
    ensures bitmaps { Bitmaps }
    ensures offsets { Offsets }
    ensures start { OffsetsFromStart }
    ensures run_ends { RunEnds }
    ensures runs { Runs }
    ensures texts { Texts }
    ensures keys { Keys }
    ensures list_views { ListViews }
    ensures children { ChildRowsReached }
    ensures views { Views }
{
    true
}
