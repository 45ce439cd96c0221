ghost use Rattle.std.specs.Prelude.{◌≡◌, ◌+◌, ◌-◌, ◌<◌, ◌≤◌, ◌++◌, length, drop, slice_index_or, slice_set, MatchBool};
ghost use Rattle.std.specs.List.{remove};
ghost use Rattle.calls.specs.declared.Refusal.TheVariants.{Contradicts, NegativeLoop};
ghost use Rattle.book.specs.Search.{Past, Joins, Seen, Located};

use calls::Refusal;
use schedule::Unrealisable;
use search::{Contradiction, Link};

/// Why a call was turned down, and how many step words stand at the start of the step row.
#[derive(Clone, Copy, Debug, PartialEq, Eq)]
pub struct Refused {
    pub refusal: Refusal,
    pub shown: usize,
}

// A refusal by itself shows no steps.
impl From<Refusal> for Refused {
    ghost from_gives = { λ e r. r ≡ record { refusal = e; shown = 0 } };

    fn from(refusal: Refusal) -> Refused {
        Refused { refusal, shown: 0 }
    }
}

impl From<Contradiction> for Refused {
    ghost from_gives = { λ e r. r ≡ record { refusal = Contradicts; shown = e.steps } };

    fn from(contradiction: Contradiction) -> Refused {
        Refused {
            refusal: Refusal::Contradicts,
            shown: contradiction.steps,
        }
    }
}

impl From<Unrealisable> for Refused {
    ghost from_gives = { λ e r. r ≡ record { refusal = NegativeLoop; shown = e.steps } };

    fn from(unrealisable: Unrealisable) -> Refused {
        Refused {
            refusal: Refusal::NegativeLoop,
            shown: unrealisable.steps,
        }
    }
}

// A book has room for at most so many links.
const MAX_LINKS: usize = 8192;

// Apart from Book, whose ghost fields cite definitions that name this struct. The row is lent, with no memory of the
// book's own: the first `count` records stand; the ones behind them are the caller's still.
#[derive(Drop)]
pub struct Store<'a, L> {
    pub links: &'a mut [Link<L>],
    pub count: usize,
    pub n: u32,
    // ISSUE and RECALL set and clear it while a file runs, so a value and no type
    pub issued: bool,
    ghost held: { count ≤ length links.now },
}

impl<'a, L: Copy> Store<'a, L> {
    ghost use Rattle.book.specs.Memory.{records, capacity_of};

    pub(crate) fn reaches_past(&self, n: u32) -> bool
        ensures { Seen (Past n) (records self.now) result }
    {
        self.links[..self.count]
            .iter()
            .any(|link| link.from > n || link.to > n)
    }

    pub(crate) fn is_full(&self) -> bool
        ensures { MatchBool result (capacity_of self.now ≤ self.now.count) (self.now.count < capacity_of self.now) }
    {
        self.count >= self.links.len().min(MAX_LINKS)
    }

    pub(crate) fn get(&self, at: usize) -> Link<L>
        requires stands { at < self.now.count }
        ensures { (d : Link L) → result ≡ slice_index_or (records self.now) at d }
    {
        self.links[at]
    }

    pub(crate) fn find(&self, from: u32, to: u32) -> Option<usize>
        ensures { Located (Joins from to) (records self.now) result }
    {
        self.links[..self.count]
            .iter()
            .position(|link| link.from == from && link.to == to)
    }

    // The records after the one at `at` move up by one place.
    pub(crate) fn remove(&mut self, at: usize)
        requires stands { at < self.old.count }
        ensures links { self.new.links.now ≡ remove (records self.old) at ++ drop (self.old.count - 1) self.old.links.now }
        ensures count { self.new.count ≡ self.old.count - 1 }
        ensures n { self.new.n ≡ self.old.n }
        ensures issued { self.new.issued ≡ self.old.issued }
    {
        self.links.copy_within(at + 1..self.count, at);
        self.count -= 1;
    }

    pub(crate) fn put(&mut self, link: Link<L>)
        requires { self.old.count < length self.old.links.now }
        ensures links { self.new.links.now ≡ slice_set self.old.links.now self.old.count link }
        ensures count { self.new.count ≡ self.old.count + 1 }
        ensures n { self.new.n ≡ self.old.n }
        ensures issued { self.new.issued ≡ self.old.issued }
    {
        self.links[self.count] = link;
        self.count += 1;
    }
}
