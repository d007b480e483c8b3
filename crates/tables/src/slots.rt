// The slots of images, by docs/FORMAT.md.
ghost use Rattle.std.specs.Prelude.{◌≡◌, true};
ghost use Rattle.tables.specs.Slots.{Answers, KeysFirst, KindsAlone, Leaves, Nested, NoneDeeper, Parents, Passes};

// Each kind has the slots that its bytes say.
pub fn slots_hold() -> bool
    ensures answer { result ≡ true }
    ensures passes { Passes }
    ensures answers { Answers }
    ensures kinds { KindsAlone }
    ensures leaves { Leaves }
    ensures parents { Parents }
    ensures keys { KeysFirst }
    ensures nested { Nested }
{
    true
}

// That slots do not change further down says so of images that there are.
pub fn slots_end() -> bool
    ensures answer { result ≡ true }
    ensures deeper { NoneDeeper }
{
    true
}
