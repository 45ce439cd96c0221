ghost use Rattle.std.specs.Prelude.{◌≡◌, ◌*◌, ◌≤◌, map, length, take, drop, MatchResult};
ghost use Rattle.calls.specs.State.{OFFSETS};
ghost use Rattle.calls.specs.declared.Refusal.TheVariants.{Torn as IsTorn};
ghost use Rattle.network.specs.Offsets.{Fits};
ghost use Rattle.search.specs.Known.{Grounded};
ghost use Rattle.search.specs.Records.{link_of};
ghost use Rattle.book.specs.Memory.{rows_of, row_answer, Answered, RowsUsed, Near};

use crate::book::Book;
use calls::Refusal;
use kind::Kind;
use search::{Network, Torn, grounded_offsets};

// Of any links, since those that no offsets carry are no book's: here the search's error becomes the refusal.
fn ground<K: Kind>(
    net: &Network<'_, K::Latency>,
    totals: &mut [K::Total],
    numbers: &mut [u32],
) -> Result<(), Refusal>
    requires totals { 2 * net.now.n ≤ length totals.old }
    requires numbers { 4 * net.now.n ≤ length numbers.old }
    ensures offsets { MatchResult result (λ _. Grounded K.Kind.meaning net.now.links.now net.now.n (take net.now.n totals.new)) (λ e. (e ≡ IsTorn) × (Fits K.Kind.meaning.quantities (map (link_of K.Kind.meaning) net.now.links.now) → ⊥)) }
    ensures totals { drop (2 * net.now.n) totals.new ≡ drop (2 * net.now.n) totals.old }
    ensures numbers { drop (4 * net.now.n) numbers.new ≡ drop (4 * net.now.n) numbers.old }
{
    // No `map_err`: its closure would drop the name of the error, which this match turns into a refusal.
    match grounded_offsets::<K>(net, totals, numbers) {
        Ok(()) => Ok(()),
        Err(Torn) => Err(Refusal::Torn),
    }
}

impl<'a, K: Kind> Book<'a, K> {
    /// OFFSETS: offsets that carry all standing links, zero at the lowest switch of each connected group, in the first
    /// n totals.
    pub fn offsets(
        &self,
        totals: &mut [K::Total],
        numbers: &mut [u32],
        steps: &[u32],
    ) -> Result<(), Refusal>
        ensures call { Answered K.Kind.meaning self.now.store (OFFSETS (rows_of totals.old numbers.old steps.now)) (row_answer K.Kind.meaning self.now.store.n result totals.new) self.now.store }
        ensures reach { Near K.Kind.meaning self.now.store.n result (take self.now.store.n totals.new) }
        ensures rows { RowsUsed self.now.store.n result totals.old totals.new numbers.old numbers.new }
    {
        self.check_rows(totals, numbers, steps)?;
        ground::<K>(&self.network(), totals, numbers)?;
        Ok(())
    }
}
