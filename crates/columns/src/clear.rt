// Words of the work that are cleared.
ghost use Rattle.std.specs.Prelude.{◌≡◌, ◌+◌, ◌≤◌, length, replicate};
ghost use Rattle.columns.specs.Jobs.{opened, splice};

// Every word becomes 0.
fn clear(region: &mut [u64])
    ensures { region.new ≡ replicate (length region.old) 0 }
{
    region.fill(0);
}

// Clears the `n` words at `at`.
fn clear_at(work: &mut [u64], at: usize, n: usize)
    requires { at + n ≤ length work.old }
    ensures { work.new ≡ splice at n work.old (replicate n 0) }
{
    clear(&mut work[at..at + n]);
}

// Clears the `n` words at `at` before child 0, and leaves them to the other children: each goes on from where the one
// before came to.
pub(crate) fn open(work: &mut [u64], at: usize, n: usize, stage: u32)
    requires { at + n ≤ length work.old }
    ensures { work.new ≡ opened at n stage work.old }
{
    if stage == 0 {
        clear_at(work, at, n);
    }
}
