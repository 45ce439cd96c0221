ghost use Rattle.std.specs.Prelude.{◌≡◌, ◌≤◌};
ghost use Rattle.report.specs.Faults.{fault_number, call_place};
ghost use Rattle.report.specs.declared.fault.CallFault.TheVariants.{Latency as OfLatency, Book as OfBook};

use crate::file::FileFault;
use book::Refused;
use calls::Refusal;

/// Which number of a LINK makes no latency.
#[derive(Clone, Copy, Debug, PartialEq, Eq)]
pub enum LatencyFault {
    Measured,
    Wanted,
}

/// What a call of a file is turned down for: before the book is called, or by the book.
#[derive(Clone, Copy, Debug, PartialEq, Eq)]
pub enum CallFault {
    Latency(LatencyFault),
    Book(Refused),
}

/// What a line's fault lies in: the file, or a call.
#[derive(Clone, Copy, Debug, PartialEq, Eq)]
pub enum Fault {
    File(FileFault),
    Call(CallFault),
}

/// A fault and its place: the number, from 1, of the word at fault, or 0 where it is the file as a whole.
#[derive(Clone, Copy, Debug, PartialEq, Eq)]
pub struct Placed {
    pub fault: Fault,
    // 0 and no None: it is the number that the report prints.
    pub place: u32,
}

/// What a call answers that is not turned down.
#[derive(Clone, Copy)]
pub enum Good<T> {
    Done,
    Total(T),
    Totals(T, T),
    // offsets that carry the links, in so many totals
    Offsets(usize),
    // the least offsets, likewise
    Schedule(usize),
}

// By hand and not by a derive, since clauses say which fault a `?` makes.
impl From<LatencyFault> for CallFault {
    ghost from_gives = { λ e r. r ≡ OfLatency e };

    fn from(e: LatencyFault) -> CallFault {
        CallFault::Latency(e)
    }
}

impl From<Refused> for CallFault {
    ghost from_gives = { λ e r. r ≡ OfBook e };

    fn from(e: Refused) -> CallFault {
        CallFault::Book(e)
    }
}

impl From<Refusal> for CallFault {
    ghost from_gives = { λ e r. r ≡ OfBook (record { refusal = e; shown = 0 }) };

    fn from(e: Refusal) -> CallFault {
        CallFault::Book(e.into())
    }
}

impl CallFault {
    // The word at fault, of a call that begins with word `first`.
    pub(crate) fn place(self, first: u32) -> u32
        requires { first ≤ 65536 }
        ensures { result ≡ call_place first self }
    {
        match self {
            CallFault::Latency(LatencyFault::Measured) => first + 1,
            CallFault::Latency(LatencyFault::Wanted) => first + 2,
            CallFault::Book(_) => first,
        }
    }
}

impl Fault {
    /// The number that reports print.
    // A match, since the variants carry faults of their own.
    pub fn number(self) -> u32
        ensures { result ≡ fault_number self }
    {
        match self {
            Fault::File(f) => f.number(),
            Fault::Call(CallFault::Latency(_)) => 1,
            Fault::Call(CallFault::Book(x)) => x.refusal.number(),
        }
    }
}
