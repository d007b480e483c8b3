// Calls of a run, by docs/RUNS.md.
ghost use Rattle.std.specs.Prelude.{◌≡◌, true};
ghost use Rattle.tables.specs.Calls.{AllCombine, BeginLimit, ColumnLimits, ColumnOrder, CombiningFirst, CombiningLater, KeepLimit, KeepRefusals, MadeCalls, Misuses, OpenedByCalls, OpenedWords, ReadRefusals, RefusalNumbers, RowsMet, TableCombines, TableRows, Unclaimed};
ghost use Rattle.tables.specs.Ledgers.{BegunAgrees, CallsLast, KeptApart, KeptComesAgain, KeptRows, ReadFollows, RefusedKeepsWork, RoomIsEnough};

// Which columns combine, which rows are met, and which calls are made.
pub fn calls_hold() -> bool
    ensures answer { result ≡ true }
    ensures first { CombiningFirst }
    ensures later { CombiningLater }
    ensures columns { TableCombines }
    ensures all { AllCombine }
    ensures rows { TableRows }
    ensures met { RowsMet }
    ensures misuses { Misuses }
    ensures made { MadeCalls }
    ensures open_words { OpenedWords }
    ensures opened { OpenedByCalls }
{
    true
}

// Calls are refused at the limits, and by the first ground that applies.
pub fn refusals_hold() -> bool
    ensures answer { result ≡ true }
    ensures unclaimed { Unclaimed }
    ensures numbers { RefusalNumbers }
    ensures begin { BeginLimit }
    ensures columns { ColumnLimits }
    ensures order { ColumnOrder }
    ensures keeps { KeepRefusals }
    ensures keep_limit { KeepLimit }
    ensures reads { ReadRefusals }
{
    true
}

// That rows come again and stay apart says so of a ledger that there is.
pub fn rows_come_again() -> bool
    ensures answer { result ≡ true }
    ensures rows { KeptRows }
    ensures enough { RoomIsEnough }
    ensures again { KeptComesAgain }
    ensures apart { KeptApart }
{
    true
}

// A begun run agrees with its ledger, and what calls promise says something of it.
pub fn calls_follow() -> bool
    ensures answer { result ≡ true }
    ensures agrees { BegunAgrees }
    ensures follows { ReadFollows }
    ensures last { CallsLast }
    ensures work { RefusedKeepsWork }
{
    true
}
