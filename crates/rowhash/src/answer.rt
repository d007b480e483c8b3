// What replay answers to the commands of a run.
use runs::fault::RunFault;
use runs::run::RowRead;
use std::fmt;

#[derive(Clone, Copy)]
pub enum Answer {
    Set,
    Accepted,
    Refused(RunFault),
    Row(RowRead),
    NoRun,
    NoColumn,
}

impl Answer {
    // Of a call that has nothing more to say where it is accepted.
    pub(crate) fn of(outcome: Result<(), RunFault>) -> Answer {
        match outcome {
            Ok(()) => Answer::Accepted,
            Err(fault) => Answer::Refused(fault),
        }
    }
}

impl fmt::Display for Answer {
    fn fmt<W: fmt::Write>(&self, f: &mut fmt::Formatter<W>) -> fmt::Result {
        match *self {
            Answer::Set => f.write_str("ok"),
            Answer::Accepted => f.write_str("accepted"),
            Answer::Refused(fault) => write!(f, "refused {}", fault.number()),
            Answer::Row(row) => write!(f, "{:016x} {}", row.number, row.count),
            Answer::NoRun => f.write_str("no run"),
            Answer::NoColumn => f.write_str("no column yet"),
        }
    }
}

// What replay answers to `words`.
#[derive(Clone, Copy)]
pub struct Words<'a>(pub &'a [u64]);

impl fmt::Display for Words<'_> {
    fn fmt<W: fmt::Write>(&self, f: &mut fmt::Formatter<W>) -> fmt::Result {
        f.write_str("words")?;
        for word in self.0 {
            write!(f, " {word:016x}")?;
        }
        Ok(())
    }
}
