ghost use Rattle.std.specs.Prelude.{◌≡◌, length, pos, IsSome};
ghost use Rattle.calls.specs.State.{SIZE, LINK, STRIKE};
ghost use Rattle.trials.specs.Outcomes.{quantity, numbered, lent, Came};

use crate::outcome::{Outcome, ShownRefusal};
use book::{Book, Link};
use kind::Kind;

// The latency that a number of the kind's range makes.
fn latency<K: Kind>(number: i32) -> K::Latency
    requires { IsSome (K.Kind.meaning.reads number) }
    ensures { K.Kind.meaning.latency result ≡ quantity K.Kind.meaning number }
{
    K::latency(number).unwrap()
}

// A record to fill a new book's row with.
pub(crate) fn blank<K: Kind>() -> Link<K::Latency>
    requires { IsSome (K.Kind.meaning.reads (pos 0)) }
{
    Link::blank(latency::<K>(0))
}

pub(crate) fn size<K: Kind>(book: &mut Book<K>, n: u32) -> Outcome
    ensures { Came K.Kind.meaning book.old.store (SIZE n) result book.new.store }
{
    book.size(n).map_err(ShownRefusal::from)
}

pub(crate) fn strike<K: Kind>(book: &mut Book<K>, from: u32, to: u32) -> Outcome
    ensures { Came K.Kind.meaning book.old.store (STRIKE from to) result book.new.store }
{
    book.strike(from, to).map_err(ShownRefusal::from)
}

// LINK, with a step row for three switches.
pub(crate) fn link<K: Kind>(book: &mut Book<K>, totals: &mut [K::Total], new: Link<i32>) -> Outcome
    requires measured { IsSome (K.Kind.meaning.reads new.measured) }
    requires wanted { IsSome (K.Kind.meaning.reads new.wanted) }
    ensures { Came K.Kind.meaning book.old.store (LINK (numbered K.Kind.meaning new) (lent (length totals.old))) result book.new.store }
{
    let new = Link {
        from: new.from,
        to: new.to,
        measured: latency::<K>(new.measured),
        wanted: latency::<K>(new.wanted),
    };
    let mut numbers = [0; 12];
    let mut steps = [0; 3];
    book.link(new, totals, &mut numbers, &mut steps)
        .map_err(|refused| ShownRefusal {
            refusal: refused.refusal,
            steps: refused.shown,
            words: steps,
        })
}
