// Which words of the work are in use.
ghost use Rattle.std.specs.Prelude.{◌≡◌};

// How many words at the front of the work are in use by others. Any count will do: where it passes the words that there
// are, none is unclaimed.
#[derive(Clone, Copy)]
pub struct WorkAccount {
    pub claimed: usize,
}

// The guard of a call, made before anything is asked: it claims by raising the account's count, and its end puts back
// what the count was, on every way out.
pub(crate) struct Claim<'a> {
    pub account: &'a mut WorkAccount,
    pub before: usize,
}

impl Drop for Claim<'_> {
    fn drop(self)
        ensures { self.exit.0.now.claimed ≡ self.entry.before }
    {
        let Claim { account, before } = self;
        account.claimed = before;
    }
}
