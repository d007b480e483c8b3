// The row rule, as definitions, and what holds of it: each function carries one statement.
#![tactic(auto)]

ghost use Rattle.std.specs.Prelude.{◌≡◌, true};
ghost use Rattle.row_rule.specs.Laws.{StaysApart, StaysBelow};
ghost use Rattle.row_rule.specs.Worked.{NumbersOfKinds, WorkedNumbers};

// The worked numbers are the row rule's, those of few slots and those of each kind.
pub fn worked_numbers_hold() -> bool
    ensures answer { result ≡ true }
    ensures worked { WorkedNumbers }
    ensures kinds { NumbersOfKinds }
{
    true
}

// No number passes 64 bits.
pub fn numbers_stay_below() -> bool
    ensures answer { result ≡ true }
    ensures below { StaysBelow }
{
    true
}

// Columns that combine keep rows apart.
pub fn rows_stay_apart() -> bool
    ensures answer { result ≡ true }
    ensures apart { StaysApart }
{
    true
}
