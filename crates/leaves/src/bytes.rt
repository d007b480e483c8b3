// Columns of texts and of byte strings.
ghost use Rattle.std.specs.Prelude.{◌≡◌, ◌+◌};
ghost use Rattle.image.specs.Read.{span_bytes};
ghost use Rattle.image.specs.Seams.{SpanThere};
ghost use Rattle.layout.specs.declared.data_type.DataType.TheVariants.{Utf8, Binary as binary_type, FixedSizeBinary};

use crate::number::{Wide, element_of};
use crate::reader::Reader;
use hash_state::{Binary, Text};
use image::slot::fixed_at;
use layout::column::Column;
use std::marker::PhantomData;

// The bytes between a row's offset and the next, by offsets of one width.
fn span_of<'a, T: Wide>(column: &Column<'a>, row: u32) -> &'a [u8]
    requires { SpanThere T.Native.width column.now.bytes.now column.now.record (column.now.record.start + row) }
    ensures { result.now ≡ span_bytes T.Native.width column.now.bytes.now column.now.record (column.now.record.start + row) }
{
    let data = column.record.b as usize;
    let at = column.element(row);
    let place = data + element_of::<T>(column, at) as usize;
    let end = data + element_of::<T>(column, at + 1) as usize;
    &column.bytes[place..end]
}

// Texts, by offsets of one width.
#[derive(Drop)]
pub(crate) struct Texts<T>(pub PhantomData<T>);

impl<'a, T: Wide + Drop> Reader<'a> for Texts<T> {
    type Item = Text<'a>;

    ghost data_type = { λ _. Utf8 T.Native.width };

    #[tactic(auto, using(crate::proofs::Told::told_text))]
    fn value(&self, column: &Column<'a>, row: u32) -> Text<'a> {
        Text(span_of::<T>(column, row))
    }
}

// Byte strings, by offsets of one width.
#[derive(Drop)]
pub(crate) struct Binaries<T>(pub PhantomData<T>);

impl<'a, T: Wide + Drop> Reader<'a> for Binaries<T> {
    type Item = Binary<'a>;

    ghost data_type = { λ _. binary_type T.Native.width };

    #[tactic(auto, using(crate::proofs::Told::told_binary))]
    fn value(&self, column: &Column<'a>, row: u32) -> Binary<'a> {
        Binary(span_of::<T>(column, row))
    }
}

// Byte strings of one size.
#[derive(Drop)]
pub(crate) struct FixedBinaries(pub u32);

impl<'a> Reader<'a> for FixedBinaries {
    type Item = Binary<'a>;

    ghost data_type = { λ s. FixedSizeBinary s.0 };

    #[tactic(auto, using(crate::proofs::Told::told_binary))]
    fn value(&self, column: &Column<'a>, row: u32) -> Binary<'a> {
        Binary(fixed_at(column, self.0, row).bytes)
    }
}
