ghost use Rattle.kinds.specs.PlaceLaws.{place_meaning};

use kind::{Kind, NoLatency};
use text::Text;

const CYCLE: u32 = 1000;

const LAST: u32 = CYCLE - 1;

/// Latency as a place of a cycle of 1,000: sums go around, and no place is below another.
pub struct Places;

/// Whatever it stores, it means a place: the last one for a number past it.
#[derive(Clone, Copy, Debug, PartialEq, Eq)]
pub struct PlaceLatency {
    place: u32,
}

impl Kind for Places {
    type Latency = PlaceLatency;

    type Total = u32;

    const WORDS: usize = 1;

    ghost meaning = { place_meaning };

    fn latency(number: i32) -> Result<PlaceLatency, NoLatency> {
        match u32::try_from(number) {
            Ok(place) if place < CYCLE => Ok(PlaceLatency { place }),
            _ => Err(NoLatency),
        }
    }

    fn zero() -> u32 {
        0
    }

    fn of(l: &PlaceLatency) -> u32 {
        l.place.min(LAST)
    }

    // Operands are reduced first, so that no sum overflows.
    fn sum(a: &u32, b: &u32) -> u32 {
        (a % CYCLE + b % CYCLE) % CYCLE
    }

    fn negated(a: &u32) -> u32 {
        (CYCLE - a % CYCLE) % CYCLE
    }

    fn same(a: &u32, b: &u32) -> bool {
        a == b
    }

    fn is_below(_a: &u32) -> bool {
        false
    }

    fn is_ordered() -> bool {
        false
    }

    fn text(t: &u32) -> Text {
        Text::of_number(u64::from(*t))
    }
}
