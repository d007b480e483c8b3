// The row rule's laws at slots and states that there are.
ghost use Rattle.std.specs.Prelude.{◌≡◌, true};
ghost use Rattle.tables.specs.Rules.{ApartFirst, ApartLater, BelowUnderFnv, BelowUnderSip, CombineFirst, CombineLater, NullForms, OwnNumbers, ViewWrites};

// Which slots combine, which are marked null, and what views tell.
pub fn slots_hold() -> bool
    ensures answer { result ≡ true }
    ensures first { CombineFirst }
    ensures later { CombineLater }
    ensures nulls { NullForms }
    ensures own { OwnNumbers }
    ensures views { ViewWrites }
{
    true
}

// That numbers stay below 2^64 holds of both hash states.
pub fn states_stay_below() -> bool
    ensures answer { result ≡ true }
    ensures fnv { BelowUnderFnv }
    ensures sip { BelowUnderSip }
{
    true
}

// That slots keep entries apart says so of each form that combines.
pub fn slots_keep_apart() -> bool
    ensures answer { result ≡ true }
    ensures first { ApartFirst }
    ensures later { ApartLater }
{
    true
}
