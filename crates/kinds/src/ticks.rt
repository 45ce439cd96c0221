ghost use Rattle.kinds.specs.TickLaws.{tick_meaning};

use kind::{Kind, NoLatency};
use text::Text;

const LIMIT: i32 = 100_000_000;

/// Latency in whole ticks, ordered by size.
pub struct Ticks;

/// Whatever it stores, it means the nearest number from -LIMIT to LIMIT.
#[derive(Clone, Copy, Debug, PartialEq, Eq)]
pub struct TickLatency {
    number: i32,
}

impl Kind for Ticks {
    type Latency = TickLatency;

    type Total = i64;

    const WORDS: usize = 1;

    ghost meaning = { tick_meaning };

    fn latency(number: i32) -> Result<TickLatency, NoLatency> {
        if (-LIMIT..=LIMIT).contains(&number) {
            Ok(TickLatency { number })
        } else {
            Err(NoLatency)
        }
    }

    fn zero() -> i64 {
        0
    }

    fn of(l: &TickLatency) -> i64 {
        i64::from(l.number.clamp(-LIMIT, LIMIT))
    }

    // Within reach a total stays far inside an i64, so nothing saturates.
    fn sum(a: &i64, b: &i64) -> i64 {
        a.saturating_add(*b)
    }

    fn negated(a: &i64) -> i64 {
        a.saturating_neg()
    }

    fn same(a: &i64, b: &i64) -> bool {
        a == b
    }

    fn is_below(a: &i64) -> bool {
        *a < 0
    }

    fn is_ordered() -> bool {
        true
    }

    fn text(t: &i64) -> Text {
        Text::of_signed(*t)
    }
}
