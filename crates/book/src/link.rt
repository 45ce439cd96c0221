ghost use Rattle.std.specs.Prelude.{◌≡◌, ◌<◌, [], ◌∷◌, ◌++◌, take, MatchResult, slice_set};
ghost use Rattle.calls.specs.State.{LINK, First};
ghost use Rattle.calls.specs.Calls.{checks, holding};
ghost use Rattle.calls.specs.Verdicts.{Ready, LinkVerdict, ReadsBack};
ghost use Rattle.network.specs.Offsets.{Fits};
ghost use Rattle.search.specs.Records.{link_of};
ghost use Rattle.book.specs.Memory.{state_of, capacity_of, records, rows_of, shown_answer, shown, Answered, Kept, Good, RowsLeft, Entered};
ghost use Rattle.book.specs.Search.{Joins, Nowhere};

use crate::book::Book;
use crate::store::Refused;
use calls::Refusal;
use kind::Kind;
use search::{Link, link_verdict};

// The calls take their rows one by one, and not as a struct: each clause of what a call leaves is about one row of the
// caller's, and through a struct of them it would also have to say that the struct still holds that row.
impl<'a, K: Kind> Book<'a, K> {
    // The checks before the verdict, in their order.
    fn check_link(
        &self,
        new: Link<K::Latency>,
        totals: &[K::Total],
        numbers: &[u32],
        steps: &[u32],
    ) -> Result<(), Refusal>
        ensures { MatchResult result (λ _. Ready K.Kind.meaning (state_of K.Kind.meaning self.now.store) (link_of K.Kind.meaning new) (rows_of totals.now numbers.now steps.now) × Nowhere (Joins new.from new.to) (records self.now.store)) (λ e. First (checks K.Kind.meaning (state_of K.Kind.meaning self.now.store) (LINK (link_of K.Kind.meaning new) (rows_of totals.now numbers.now steps.now))) e []) }
    {
        self.check_not_issued()?;
        self.check_inside(new.from, new.to)?;
        if new.from == new.to {
            return Err(Refusal::SameSwitch);
        }
        if self.store.find(new.from, new.to).is_some() {
            return Err(Refusal::AlreadyStands);
        }
        if self.store.is_full() {
            return Err(Refusal::Full);
        }
        self.check_rows(totals, numbers, steps)
    }

    // Writes the record behind the standing ones, where it may stand.
    fn append(&mut self, link: Link<K::Latency>)
        requires good { Good self.old.store.n link }
        requires fresh { Nowhere (Joins link.from link.to) (records self.old.store) }
        requires room { self.old.store.count < capacity_of self.old.store }
        requires fits { Fits K.Kind.meaning.quantities ((state_of K.Kind.meaning self.old.store).links ++ link_of K.Kind.meaning link ∷ []) }
        ensures state { state_of K.Kind.meaning self.new.store ≡ holding K.Kind.meaning (state_of K.Kind.meaning self.old.store) ((state_of K.Kind.meaning self.old.store).links ++ link_of K.Kind.meaning link ∷ []) }
        ensures records { self.new.store.links.now ≡ slice_set self.old.store.links.now self.old.store.count link }
    {
        self.store.put(link);
    }

    // The call itself. `link` proves its verdict from `call` once; in one function each way out would have to.
    fn enter(
        &mut self,
        new: Link<K::Latency>,
        totals: &mut [K::Total],
        numbers: &mut [u32],
        steps: &mut [u32],
    ) -> Result<(), Refused>
        ensures call { Answered K.Kind.meaning self.old.store (LINK (link_of K.Kind.meaning new) (rows_of totals.old numbers.old steps.old)) (shown_answer result steps.new) self.new.store }
        ensures kept { Kept result self.old.store self.new.store }
        ensures records { Entered result new self.old.store self.new.store }
        ensures rows { RowsLeft self.old.store.n result totals.old totals.new numbers.old numbers.new steps.old steps.new }
    {
        self.check_link(new, totals, numbers, steps)?;
        link_verdict::<K>(&self.network(), &new, totals, numbers, steps)?;
        self.append(new);
        Ok(())
    }

    /// LINK: a new link stands last, if offsets carry it with those that stand. If none do, the refusal shows the
    /// path of joining links that leads from its receiver back to its sender.
    pub fn link(
        &mut self,
        new: Link<K::Latency>,
        totals: &mut [K::Total],
        numbers: &mut [u32],
        steps: &mut [u32],
    ) -> Result<(), Refused>
        ensures call { Answered K.Kind.meaning self.old.store (LINK (link_of K.Kind.meaning new) (rows_of totals.old numbers.old steps.old)) (shown_answer result steps.new) self.new.store }
        ensures verdict { LinkVerdict K.Kind.meaning (state_of K.Kind.meaning self.old.store) (link_of K.Kind.meaning new) (rows_of totals.old numbers.old steps.old) (shown_answer result steps.new) (state_of K.Kind.meaning self.new.store) }
        ensures readback { ReadsBack K.Kind.meaning (state_of K.Kind.meaning self.old.store) (link_of K.Kind.meaning new) (shown_answer result steps.new) (take (shown result) steps.new) }
        ensures kept { Kept result self.old.store self.new.store }
        ensures records { Entered result new self.old.store self.new.store }
        ensures rows { RowsLeft self.old.store.n result totals.old totals.new numbers.old numbers.new steps.old steps.new }
    {
        self.enter(new, totals, numbers, steps)
    }
}
