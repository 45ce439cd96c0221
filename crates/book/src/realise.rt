ghost use Rattle.std.specs.Prelude.{take};
ghost use Rattle.calls.specs.State.{REALISE};
ghost use Rattle.calls.specs.Verdicts.{RealiseVerdict, LoopReadsBack};
ghost use Rattle.book.specs.Memory.{state_of, rows_of, shown_offsets, shown, Answered, RowsLeft, Near};

use crate::book::Book;
use crate::store::Refused;
use calls::Refusal;
use kind::Kind;
use schedule::least_offsets;

impl<'a, K: Kind> Book<'a, K> {
    // The call itself. `realise` proves its verdict from `call` once; in one function each way out would have to.
    fn schedule(
        &self,
        totals: &mut [K::Total],
        numbers: &mut [u32],
        steps: &mut [u32],
    ) -> Result<(), Refused>
        ensures call { Answered K.Kind.meaning self.now.store (REALISE (rows_of totals.old numbers.old steps.old)) (shown_offsets K.Kind.meaning result totals.new steps.new) self.now.store }
        ensures rows { RowsLeft self.now.store.n result totals.old totals.new numbers.old numbers.new steps.old steps.new }
        ensures reach { Near K.Kind.meaning self.now.store.n result totals.new }
    {
        if !K::is_ordered() {
            return Err(Refusal::Unordered.into());
        }
        self.check_rows(totals, numbers, steps)?;
        least_offsets::<K>(&self.network(), totals, numbers, steps)?;
        Ok(())
    }

    /// REALISE: the least offsets, none below zero, under which no standing link's measured latency is below zero, in
    /// the first n totals. If there are none, the refusal shows a loop whose measured total is below zero.
    pub fn realise(
        &self,
        totals: &mut [K::Total],
        numbers: &mut [u32],
        steps: &mut [u32],
    ) -> Result<(), Refused>
        ensures call { Answered K.Kind.meaning self.now.store (REALISE (rows_of totals.old numbers.old steps.old)) (shown_offsets K.Kind.meaning result totals.new steps.new) self.now.store }
        ensures verdict { RealiseVerdict K.Kind.meaning (state_of K.Kind.meaning self.now.store) (rows_of totals.old numbers.old steps.old) (shown_offsets K.Kind.meaning result totals.new steps.new) }
        ensures readback { LoopReadsBack K.Kind.meaning (state_of K.Kind.meaning self.now.store) (shown_offsets K.Kind.meaning result totals.new steps.new) (take (shown result) steps.new) }
        ensures rows { RowsLeft self.now.store.n result totals.old totals.new numbers.old numbers.new steps.old steps.new }
        ensures reach { Near K.Kind.meaning self.now.store.n result totals.new }
    {
        self.schedule(totals, numbers, steps)
    }
}
