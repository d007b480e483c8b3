// Null marks, counted.
ghost use Rattle.std.specs.Prelude.{◌≡◌, true};
ghost use Rattle.tables.specs.Nulls.{ManyNulls, NoNulls};

// However many rows are marked null, they are counted.
pub fn nulls_are_counted() -> bool
    ensures answer { result ≡ true }
    ensures many { ManyNulls }
    ensures none { NoNulls }
{
    true
}
