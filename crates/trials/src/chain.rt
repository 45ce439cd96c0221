ghost use Rattle.std.specs.Prelude.{◌≡◌, [], ◌∷◌, pos, negsuc, Ok, Err};
ghost use Rattle.kinds.specs.TickLaws.{tick_meaning};
ghost use Rattle.book.specs.Memory.{state_of};
ghost use Rattle.trials.specs.Outcomes.{edge, holds, Reached};

use crate::outcome::Outcome;
use crate::perform::{blank, link, size, strike};
use book::{Book, Link};
use calls::Refusal;
use kinds::{TickLatency, Ticks};

// Links of a worked example: data, which each example has of its own.
const FIRST: Link<i32> = Link {
    from: 1,
    to: 2,
    measured: 5,
    wanted: 6,
};

const SECOND: Link<i32> = Link {
    from: 2,
    to: 3,
    measured: -2,
    wanted: 0,
};

// It wants as much more than it measured as the first two together.
const CLOSING: Link<i32> = Link {
    from: 1,
    to: 3,
    measured: 4,
    wanted: 7,
};

// One tick more than that.
pub(crate) const LATE: Link<i32> = Link {
    wanted: 8,
    ..CLOSING
};

// A new book of three switches, with links from the first to the second and on to the third.
pub(crate) fn chain<'a>(records: &'a mut [Link<TickLatency>; 3]) -> (Book<'a, Ticks>, [Outcome; 3])
    ensures outcomes { result.1 ≡ Ok tt ∷ Ok tt ∷ Ok tt ∷ [] }
    ensures state { Reached tick_meaning result.0.store (holds 3 (edge 1 2 (pos 5) (pos 6) ∷ edge 2 3 (negsuc 1) (pos 0) ∷ [])) }
{
    let mut book = Book::new(records);
    let sized = size(&mut book, 3);
    let first = link(&mut book, &mut [0; 6], FIRST);
    let second = link(&mut book, &mut [0; 6], SECOND);
    (book, [sized, first, second])
}

// A link that closes the chain and wants what the chain does is taken, and stands last.
pub(crate) fn closing_link_fits<'a>(
    records: &'a mut [Link<TickLatency>; 3],
) -> (Book<'a, Ticks>, [Outcome; 4])
    ensures outcomes { result.1 ≡ Ok tt ∷ Ok tt ∷ Ok tt ∷ Ok tt ∷ [] }
    ensures links { (state_of tick_meaning result.0.store).links ≡ edge 1 2 (pos 5) (pos 6) ∷ edge 2 3 (negsuc 1) (pos 0) ∷ edge 1 3 (pos 4) (pos 7) ∷ [] }
{
    let (mut book, [sized, first, second]) = chain(records);
    let closing = link(&mut book, &mut [0; 6], CLOSING);
    (book, [sized, first, second, closing])
}

// One that wants a tick more is refused, with the way back over the chain.
pub(crate) fn closing_link_contradicts() -> [Outcome; 4]
    ensures { result ≡ Ok tt ∷ Ok tt ∷ Ok tt ∷ Err (record { refusal = Refusal.Contradicts; steps = 2; words = 0xB000_0002 ∷ 0xB000_0001 ∷ 0 ∷ [] }) ∷ [] }
{
    let mut records = [blank::<Ticks>(); 3];
    let (mut book, [sized, first, second]) = chain(&mut records);
    let refused = link(&mut book, &mut [0; 6], LATE);
    [sized, first, second, refused]
}

// Once the second link is struck, that one is taken.
pub(crate) fn struck_link_binds_no_more() -> [Outcome; 5]
    ensures { result ≡ Ok tt ∷ Ok tt ∷ Ok tt ∷ Ok tt ∷ Ok tt ∷ [] }
{
    let mut records = [blank::<Ticks>(); 3];
    let (mut book, [sized, first, second]) = chain(&mut records);
    let struck = strike(&mut book, 2, 3);
    let taken = link(&mut book, &mut [0; 6], LATE);
    [sized, first, second, struck, taken]
}
