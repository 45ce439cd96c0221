ghost use Rattle.std.specs.Prelude.{◌≡◌, ◌-◌, ◌*◌, ◌≤◌, ◌⊎◌, List, length, drop, Ok as Fine, Err as Not, IfOk, MatchResult};
ghost use Rattle.calls.specs.State.{Call, Answer, OFFSET};
ghost use Rattle.calls.specs.Calls.{Ran};
ghost use Rattle.calls.specs.Verdicts.{OffsetVerdict};
ghost use Rattle.calls.specs.declared.Refusal.TheVariants.{Torn as IsTorn, NotConnected};
ghost use Rattle.search.specs.Known.{Tells};
ghost use Rattle.search.specs.Records.{On};
ghost use Rattle.search.specs.declared.errors.Unknown.TheVariants.{Torn as AreTorn, Apart as AreApart};
ghost use Rattle.book.specs.Memory.{state_of, rows_of, single, Answered, RowsUsed};

use crate::book::Book;
use calls::Refusal;
use kind::Kind;
use search::{Network, Unknown, offset_between};

// Of any links, since those that no offsets carry are no book's: here the search's errors become refusals.
fn known_difference<K: Kind>(
    net: &Network<'_, K::Latency>,
    i: u32,
    j: u32,
    totals: &mut [K::Total],
    numbers: &mut [u32],
) -> Result<K::Total, Refusal>
    requires totals { 2 * net.now.n ≤ length totals.old }
    requires numbers { 4 * net.now.n ≤ length numbers.old }
    requires i { On net.now.n i }
    requires j { On net.now.n j }
    ensures answer { MatchResult result (λ t. Tells K.Kind.meaning net.now.links.now net.now.n i j (Fine t)) (λ e. ((e ≡ IsTorn) × Tells K.Kind.meaning net.now.links.now net.now.n i j (Not AreTorn)) ⊎ ((e ≡ NotConnected) × Tells K.Kind.meaning net.now.links.now net.now.n i j (Not AreApart))) }
    ensures totals { drop (2 * net.now.n) totals.new ≡ drop (2 * net.now.n) totals.old }
    ensures numbers { drop (4 * net.now.n) numbers.new ≡ drop (4 * net.now.n) numbers.old }
{
    // No `map_err`: its closure would be this match.
    match offset_between::<K>(net, i, j, totals, numbers) {
        Ok(t) => Ok(t),
        Err(Unknown::Torn) => Err(Refusal::Torn),
        Err(Unknown::Apart) => Err(Refusal::NotConnected),
    }
}

impl<'a, K: Kind> Book<'a, K> {
    // The call itself. `offset` proves its verdict from `call` once; in one function each way out would have to.
    fn difference(
        &self,
        i: u32,
        j: u32,
        totals: &mut [K::Total],
        numbers: &mut [u32],
        steps: &[u32],
    ) -> Result<K::Total, Refusal>
        ensures call { Answered K.Kind.meaning self.now.store (OFFSET i j (rows_of totals.old numbers.old steps.now)) (single K.Kind.meaning result) self.now.store }
        ensures reach { IfOk result (λ t. K.Kind.meaning.within (2 * (self.now.store.n - 1)) t) }
        ensures rows { RowsUsed self.now.store.n result totals.old totals.new numbers.old numbers.new }
    {
        self.check_inside(i, j)?;
        self.check_rows(totals, numbers, steps)?;
        known_difference::<K>(&self.network(), i, j, totals, numbers)
    }

    /// OFFSET: what the offset of j is more than that of i, in all offsets that carry the standing links.
    pub fn offset(
        &self,
        i: u32,
        j: u32,
        totals: &mut [K::Total],
        numbers: &mut [u32],
        steps: &[u32],
    ) -> Result<K::Total, Refusal>
        ensures call { Answered K.Kind.meaning self.now.store (OFFSET i j (rows_of totals.old numbers.old steps.now)) (single K.Kind.meaning result) self.now.store }
        ensures verdict { (h : List (Call K.Kind.meaning.quantities.Q × Answer K.Kind.meaning.quantities.Q)) → Ran K.Kind.meaning h (state_of K.Kind.meaning self.now.store) → OffsetVerdict K.Kind.meaning (state_of K.Kind.meaning self.now.store) i j (rows_of totals.old numbers.old steps.now) (single K.Kind.meaning result) }
        ensures reach { IfOk result (λ t. K.Kind.meaning.within (2 * (self.now.store.n - 1)) t) }
        ensures rows { RowsUsed self.now.store.n result totals.old totals.new numbers.old numbers.new }
    {
        self.difference(i, j, totals, numbers, steps)
    }
}
