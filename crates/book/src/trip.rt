ghost use Rattle.std.specs.Prelude.{◌≤◌};
ghost use Rattle.book.specs.Walking.{Named, LegOf};

use kind::Kind;
use network::Step;
use search::Link;

// Where a walk is, and what it comes to so far.
#[derive(Clone, Copy, Debug, PartialEq, Eq)]
pub struct Trip<T> {
    // 0, no switch, before the first step: the test on `done` comes first.
    pub at: u32,
    pub measured: T,
    pub wanted: T,
}

// One step over a link: where it begins and ends, and what it adds.
#[derive(Clone, Copy, Debug, PartialEq, Eq)]
pub struct Leg<T> {
    pub start: u32,
    pub end: u32,
    pub measured: T,
    pub wanted: T,
}

// The step that the word names, where a link stands at its position.
pub(crate) fn read_step(word: u32, count: usize) -> Option<Step>
    requires { count ≤ 8192 }
    ensures { Named count word result }
{
    let step = Step::try_from(word).ok()?;
    (1..=count).contains(&step.place()).then_some(step)
}

// What the step adds to a walk that comes to the link.
pub(crate) fn pass<K: Kind>(step: Step, link: Link<K::Latency>) -> Leg<K::Total>
    ensures { LegOf K.Kind.meaning step link result }
{
    let measured = K::of(&link.measured);
    let wanted = K::of(&link.wanted);
    match step {
        Step::Forward(_) => Leg {
            start: link.from,
            end: link.to,
            measured,
            wanted,
        },
        Step::Backward(_) => Leg {
            start: link.to,
            end: link.from,
            measured: K::negated(&measured),
            wanted: K::negated(&wanted),
        },
    }
}
