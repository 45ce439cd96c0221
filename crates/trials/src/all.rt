ghost use Rattle.std.specs.Prelude.{◌≡◌, [], ◌∷◌, pos, negsuc, Ok, Err};
ghost use Rattle.kinds.specs.TickLaws.{tick_meaning};
ghost use Rattle.book.specs.Memory.{state_of};
ghost use Rattle.trials.specs.Outcomes.{edge};

use crate::chain::{closing_link_contradicts, closing_link_fits, struck_link_binds_no_more};
use crate::outcome::Outcome;
use crate::round_trip::{round_trip_in_places, round_trip_in_ticks};
use book::{Book, Link};
use calls::Refusal;
use kinds::{TickLatency, Ticks};

/// The outcomes of every trial, call by call.
#[derive(Clone, Copy, Debug, PartialEq, Eq)]
pub struct Trials {
    pub closing: [Outcome; 4],
    pub late: [Outcome; 4],
    pub struck: [Outcome; 5],
    pub ticks: [Outcome; 3],
    pub places: [Outcome; 3],
}

/// Every trial; the book is left as the closing link that fits leaves it.
pub fn all_trials<'a>(records: &'a mut [Link<TickLatency>; 3]) -> (Book<'a, Ticks>, Trials)
    ensures closing { result.1.closing ≡ Ok tt ∷ Ok tt ∷ Ok tt ∷ Ok tt ∷ [] }
    ensures links { (state_of tick_meaning result.0.store).links ≡ edge 1 2 (pos 5) (pos 6) ∷ edge 2 3 (negsuc 1) (pos 0) ∷ edge 1 3 (pos 4) (pos 7) ∷ [] }
    ensures late { result.1.late ≡ Ok tt ∷ Ok tt ∷ Ok tt ∷ Err (record { refusal = Refusal.Contradicts; steps = 2; words = 0xB000_0002 ∷ 0xB000_0001 ∷ 0 ∷ [] }) ∷ [] }
    ensures struck { result.1.struck ≡ Ok tt ∷ Ok tt ∷ Ok tt ∷ Ok tt ∷ Ok tt ∷ [] }
    ensures ticks { result.1.ticks ≡ Ok tt ∷ Ok tt ∷ Err (record { refusal = Refusal.Contradicts; steps = 1; words = 0xA000_0001 ∷ 0 ∷ 0 ∷ [] }) ∷ [] }
    ensures places { result.1.places ≡ Ok tt ∷ Ok tt ∷ Ok tt ∷ [] }
{
    let (book, closing) = closing_link_fits(records);
    let trials = Trials {
        closing,
        late: closing_link_contradicts(),
        struck: struck_link_binds_no_more(),
        ticks: round_trip_in_ticks(),
        places: round_trip_in_places(),
    };
    (book, trials)
}
