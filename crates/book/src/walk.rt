ghost use Rattle.std.specs.Prelude.{◌≡◌, ℕ, ◌<◌, List, length, IfOk};
ghost use Rattle.calls.specs.State.{WALK};
ghost use Rattle.book.specs.Memory.{state_of, pair, Answered};
ghost use Rattle.book.specs.Walking.{Walked, Stepped};

use crate::book::Book;
use crate::trip::{Trip, pass, read_step};
use calls::Refusal;
use kind::Kind;

// A walk has at most so many words.
const MAX_WORDS: usize = 65536;

impl<'a, K: Kind> Book<'a, K> {
    // One word more of a walk that has read `done` of them.
    fn advance(
        &self,
        done: usize,
        trip: Trip<K::Total>,
        word: u32,
    ) -> Result<Trip<K::Total>, Refusal>
        ensures { (ws : List ℕ) → length ws ≡ done → done < 65536 → Walked K.Kind.meaning (state_of K.Kind.meaning self.now.store) ws trip → Stepped K.Kind.meaning (state_of K.Kind.meaning self.now.store) ws trip word result }
    {
        let Some(step) = read_step(word, self.store.count) else {
            return Err(Refusal::NoSuchStep);
        };
        let leg = pass::<K>(step, self.store.get(step.place() - 1));
        if done > 0 && leg.start != trip.at {
            return Err(Refusal::BrokenWalk);
        }
        Ok(Trip {
            at: leg.end,
            measured: K::sum(&trip.measured, &leg.measured),
            wanted: K::sum(&trip.wanted, &leg.wanted),
        })
    }

    /// WALK: the measured and the wanted total of the steps that the words name, each step from where the last ended.
    pub fn walk(&self, words: &[u32]) -> Result<(K::Total, K::Total), Refusal>
        ensures call { Answered K.Kind.meaning self.now.store (WALK words.now) (pair K.Kind.meaning result) self.now.store }
        ensures reach { IfOk result (λ x. K.Kind.meaning.within 65536 x.0 × K.Kind.meaning.within 65536 x.1) }
    {
        if words.len() > MAX_WORDS {
            return Err(Refusal::WalkTooLong);
        }
        let mut trip = Trip {
            // 0, no switch, before the first step: the test on `done` comes first.
            at: 0,
            measured: K::zero(),
            wanted: K::zero(),
        };
        for (done, &word) in words.iter().enumerate() {
            trip = self.advance(done, trip, word)?;
        }
        Ok((trip.measured, trip.wanted))
    }
}
