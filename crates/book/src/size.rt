ghost use Rattle.calls.specs.State.{SIZE};
ghost use Rattle.book.specs.Memory.{plain, Answered, Untouched, Kept};

use crate::book::Book;
use calls::Refusal;
use kind::Kind;

// A book has at most so many switches.
const MAX_SWITCHES: u32 = 1024;

impl<'a, K: Kind> Book<'a, K> {
    /// SIZE: sets the number of switches.
    pub fn size(&mut self, n: u32) -> Result<(), Refusal>
        ensures call { Answered K.Kind.meaning self.old.store (SIZE n) (plain result) self.new.store }
        ensures kept { Kept result self.old.store self.new.store }
        ensures records { Untouched self.old.store self.new.store }
    {
        self.check_not_issued()?;
        if !(1..=MAX_SWITCHES).contains(&n) {
            return Err(Refusal::BadSize);
        }
        if self.store.reaches_past(n) {
            return Err(Refusal::SizeBelowLink);
        }
        self.store.n = n;
        Ok(())
    }
}
