#![tactic(auto)]

ghost use Rattle.std.specs.Prelude.{◌≡◌, ◌<◌, List, Some};
ghost use Rattle.network.specs.Graph.{place, reverse};
ghost use Rattle.network.specs.Offsets.{Link};
ghost use Rattle.network.specs.Theorems.{Theory};
ghost use Rattle.network.specs.Words.{word, decode, Decoded};

use kind::Kind;

// A step word is FORWARD or BACKWARD plus the link's position, which is below POSITIONS.
const FORWARD: u32 = 0xA000_0000;

const BACKWARD: u32 = 0xB000_0000;

const POSITIONS: usize = 0x1000_0000;

/// One step of a walk: over the link at a position, from its sender to its receiver, or back.
#[derive(Clone, Copy, Debug, PartialEq, Eq)]
pub enum Step {
    Forward(usize),
    Backward(usize),
}

impl Step {
    /// The same link passed the other way.
    pub fn reversed(self) -> Step
        ensures { result ≡ reverse self }
    {
        match self {
            Step::Forward(p) => Step::Backward(p),
            Step::Backward(p) => Step::Forward(p),
        }
    }

    /// The position of the link that is passed.
    pub fn place(self) -> usize
        ensures { result ≡ place self }
    {
        match self {
            Step::Forward(p) | Step::Backward(p) => p,
        }
    }

    /// The step's word, from which it is read back, for a position below 268,435,456.
    pub fn word(self) -> u32
        ensures word { place self < 268435456 → result ≡ word self }
        ensures back { place self < 268435456 → decode result ≡ Some self }
    {
        let place = (self.place() % POSITIONS) as u32;
        match self {
            Step::Forward(_) => FORWARD + place,
            Step::Backward(_) => BACKWARD + place,
        }
    }
}

/// The word stands for no step.
#[derive(Clone, Copy, Debug, PartialEq, Eq)]
pub struct NotAStep;

impl TryFrom<u32> for Step {
    type Error = NotAStep;

    ghost try_from_gives = { Decoded };

    fn try_from(word: u32) -> Result<Step, NotAStep> {
        if word < FORWARD {
            return Err(NotAStep);
        }
        if word < BACKWARD {
            return Ok(Step::Forward((word - FORWARD) as usize));
        }
        Ok(Step::Backward((word - BACKWARD) as usize))
    }
}

/// What holds of every list of links, in every kind.
pub fn theory_stands<K: Kind>()
    ensures { (links : List (Link K.Kind.meaning.quantities.Q)) → Theory K.Kind.meaning.quantities links }
{}
