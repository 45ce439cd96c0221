ghost use Rattle.std.specs.Prelude.{◌≡◌, true, false, [], ◌∷◌, MatchResult};
ghost use Rattle.book.specs.Memory.{rows_of};
ghost use Rattle.calls.specs.State.{Inside, Enough};
ghost use Rattle.calls.specs.declared.Refusal.TheVariants.{Issued, UnknownSwitch, ShortRow};

use crate::book::Book;
use calls::Refusal;
use kind::Kind;

impl<'a, K: Kind> Book<'a, K> {
    // An issued book takes no change.
    pub(crate) fn check_not_issued(&self) -> Result<(), Refusal>
        ensures { MatchResult result (λ _. self.now.store.issued ≡ false) (λ e. (e ≡ Issued) × (self.now.store.issued ≡ true)) }
    {
        if self.store.issued {
            Err(Refusal::Issued)
        } else {
            Ok(())
        }
    }

    // Whether the book knows both switches.
    pub(crate) fn check_inside(&self, i: u32, j: u32) -> Result<(), Refusal>
        ensures { MatchResult result (λ _. Inside self.now.store.n (i ∷ j ∷ [])) (λ e. (e ≡ UnknownSwitch) × (Inside self.now.store.n (i ∷ j ∷ []) → ⊥)) }
    {
        let known = 1..=self.store.n;
        if known.contains(&i) && known.contains(&j) {
            Ok(())
        } else {
            Err(Refusal::UnknownSwitch)
        }
    }

    // Whether the rows have the places that a search over the book's switches needs.
    pub(crate) fn check_rows(
        &self,
        totals: &[K::Total],
        numbers: &[u32],
        steps: &[u32],
    ) -> Result<(), Refusal>
        ensures { MatchResult result (λ _. Enough self.now.store.n (rows_of totals.now numbers.now steps.now)) (λ e. (e ≡ ShortRow) × (Enough self.now.store.n (rows_of totals.now numbers.now steps.now) → ⊥)) }
    {
        let n = self.store.n as usize;
        if 2 * n <= totals.len() && 4 * n <= numbers.len() && n <= steps.len() {
            Ok(())
        } else {
            Err(Refusal::ShortRow)
        }
    }
}
