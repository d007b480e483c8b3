// The types of columns, and the bytes of an image, by docs/FORMAT.md.
ghost use Rattle.std.specs.Prelude.{◌≡◌, true};
ghost use Rattle.tables.specs.Bytes.{Bits, ChildRows, Counts, Elements, Fields, LongViews, Marks, Records, TypedMarks, ViewParts};
ghost use Rattle.tables.specs.Types.{BitmapBytes, ChildCounts, KeySigns, KindNumbers, Kinds, NullsRead, Signs, Sizes, Tables, WidthBytes};

// Each kind has the types, the table, the bitmap and the signs that the format lists.
pub fn types_hold() -> bool
    ensures answer { result ≡ true }
    ensures kinds { Kinds }
    ensures sizes { Sizes }
    ensures key_signs { KeySigns }
    ensures numbers { KindNumbers }
    ensures tables { Tables }
    ensures counts { ChildCounts }
    ensures nulls { NullsRead }
    ensures widths { WidthBytes }
    ensures signs { Signs }
    ensures bitmaps { BitmapBytes }
{
    true
}

// Numbers, bits, records and views are read where the format says that they stand.
pub fn bytes_hold() -> bool
    ensures answer { result ≡ true }
    ensures fields { Fields }
    ensures bits { Bits }
    ensures records { Records }
    ensures counts { Counts }
    ensures marks { Marks }
    ensures typed_marks { TypedMarks }
    ensures elements { Elements }
    ensures children { ChildRows }
    ensures views { ViewParts }
    ensures long { LongViews }
{
    true
}
