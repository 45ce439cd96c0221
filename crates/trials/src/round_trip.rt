ghost use Rattle.std.specs.Prelude.{◌≡◌, [], ◌∷◌, pos, IsSome, Ok, Err};
ghost use Rattle.trials.specs.Outcomes.{Returned};

use crate::outcome::Outcome;
use crate::perform::{blank, link, size};
use book::{Book, Link};
use calls::Refusal;
use kind::Kind;
use kinds::{Places, Ticks};

const OUT: Link<i32> = Link {
    from: 1,
    to: 2,
    measured: 0,
    wanted: 600,
};

const BACK: Link<i32> = Link {
    from: 2,
    to: 1,
    measured: 0,
    wanted: 400,
};

// Two switches, with a link that wants 600 more on the way out and one that wants 400 more on the way back.
fn round_trip<K: Kind>(
    records: &mut [Link<K::Latency>; 3],
    totals: &mut [K::Total; 4],
) -> [Outcome; 3]
    requires measured { IsSome (K.Kind.meaning.reads (pos 0)) }
    requires out { IsSome (K.Kind.meaning.reads (pos 600)) }
    requires back { IsSome (K.Kind.meaning.reads (pos 400)) }
    ensures { Returned K.Kind.meaning result }
{
    let mut book = Book::<K>::new(records);
    let sized = size(&mut book, 2);
    let out = link(&mut book, totals, OUT);
    let back = link(&mut book, totals, BACK);
    [sized, out, back]
}

// In ticks they contradict.
pub(crate) fn round_trip_in_ticks() -> [Outcome; 3]
    ensures { result ≡ Ok tt ∷ Ok tt ∷ Err (record { refusal = Refusal.Contradicts; steps = 1; words = 0xA000_0001 ∷ 0 ∷ 0 ∷ [] }) ∷ [] }
{
    round_trip::<Ticks>(&mut [blank::<Ticks>(); 3], &mut [0; 4])
}

// On a cycle of 1,000 places they fit.
pub(crate) fn round_trip_in_places() -> [Outcome; 3]
    ensures { result ≡ Ok tt ∷ Ok tt ∷ Ok tt ∷ [] }
{
    round_trip::<Places>(&mut [blank::<Places>(); 3], &mut [0; 4])
}
