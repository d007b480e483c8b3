// The work of columns, by docs/RUNS.md.
ghost use Rattle.std.specs.Prelude.{◌≡◌, true};
ghost use Rattle.tables.specs.Work.{EndsStay, LeafTypes, Needs, OpenWords};

// Which types are leaves, which words are open, and what is needed.
pub fn work_holds() -> bool
    ensures answer { result ≡ true }
    ensures leaves { LeafTypes }
    ensures open_words { OpenWords }
    ensures needs { Needs }
{
    true
}

// That words that are not open stay says so of words that there are.
pub fn words_stay() -> bool
    ensures answer { result ≡ true }
    ensures ends { EndsStay }
{
    true
}
