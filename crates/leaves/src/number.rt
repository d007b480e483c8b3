// Columns of numbers and floats of one width: one load for one value.
ghost use Rattle.std.specs.Prelude.{◌≡◌, ◌+◌, refl};
ghost use Rattle.admission.specs.Seams.{ElementThere};
ghost use Rattle.layout.specs.Bytes.{wide};
ghost use Rattle.layout.specs.Nodes.{element};
ghost use Rattle.layout.specs.declared.data_type.DataType.TheVariants.{Number as NumberOf, Float as FloatOf};

use crate::reader::Reader;
use hash_state::{Float, FloatBits, Integer};
use layout::bytes::Native;
use layout::column::Column;
use std::marker::PhantomData;

// Unsigned numbers of one width, as 64-bit numbers: what is read by the type asks no row for the width. An impl for each
// width: the laws hold by computing, once the type is known.
pub trait Wide: Native {
    // The bytes of a number.
    fn width() -> usize
        ensures { result ≡ wide Self.Native.width };

    // The number itself.
    fn number(self) -> u64
        ensures { result ≡ Self.Native.value self };
}

impl Wide for u8 {
    fn width() -> usize {
        1
    }

    fn number(self) -> u64 {
        u64::from(self)
    }
}

impl Wide for u16 {
    fn width() -> usize {
        2
    }

    fn number(self) -> u64 {
        u64::from(self)
    }
}

impl Wide for u32 {
    fn width() -> usize {
        4
    }

    fn number(self) -> u64 {
        u64::from(self)
    }
}

impl Wide for u64 {
    fn width() -> usize {
        8
    }

    fn number(self) -> u64 {
        self
    }
}

// An element of the buffer at A: an offset, a key or a value.
pub fn element_of<T: Wide>(column: &Column<'_>, at: usize) -> u64
    requires { ElementThere T.Native.width column.now.bytes.now column.now.record.a at }
    ensures { result ≡ element T.Native.width column.now.bytes.now column.now.record.a at }
{
    let place = column.record.a as usize + T::width() * at;
    T::load(column.bytes, place).number()
}

// Numbers that stand in a column, as themselves or as the bits of a float: the number that is read is the one that is told.
pub(crate) trait Number: Wide + Integer {
    ghost same_width: { Self.Integer.width ≡ wide Self.Native.width };

    ghost same_number: { (x : Self) → Self.Integer.bits x ≡ Self.Native.value x };
}

impl Number for u8 {
    ghost same_width = { refl };

    ghost same_number = { λ _. refl };
}

impl Number for u16 {
    ghost same_width = { refl };

    ghost same_number = { λ _. refl };
}

impl Number for u32 {
    ghost same_width = { refl };

    ghost same_number = { λ _. refl };
}

impl Number for u64 {
    ghost same_width = { refl };

    ghost same_number = { λ _. refl };
}

// The number at a row.
fn load<T: Number>(column: &Column<'_>, row: u32) -> T
    requires { ElementThere T.Native.width column.now.bytes.now column.now.record.a (column.now.record.start + row) }
    ensures { T.Native.value result ≡ element T.Native.width column.now.bytes.now column.now.record.a (column.now.record.start + row) }
{
    let place = column.record.a as usize + T::width() * column.element(row);
    T::load(column.bytes, place)
}

#[derive(Drop)]
pub(crate) struct Numbers<T>(pub PhantomData<T>);

impl<'a, T: Number + Drop> Reader<'a> for Numbers<T> {
    type Item = T;

    ghost data_type = { λ _. NumberOf T.Native.width };

    fn value(&self, column: &Column<'a>, row: u32) -> T {
        load::<T>(column, row)
    }
}

#[derive(Drop)]
pub(crate) struct Floats<T>(pub PhantomData<T>);

impl<'a, T: Number + FloatBits + Drop> Reader<'a> for Floats<T> {
    type Item = Float<T>;

    ghost data_type = { λ _. FloatOf T.Native.width };

    fn value(&self, column: &Column<'a>, row: u32) -> Float<T> {
        Float(load::<T>(column, row))
    }
}
