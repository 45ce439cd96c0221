ghost use Rattle.calls.specs.State.{ISSUE, RECALL};
ghost use Rattle.book.specs.Memory.{plain, Answered, Untouched, Kept};

use crate::book::Book;
use calls::Refusal;
use kind::Kind;

// Two calls of one line each, that differ in the mark and the refusal: one function of both would be no shorter.
impl<'a, K: Kind> Book<'a, K> {
    /// ISSUE: marks the book.
    pub fn issue(&mut self) -> Result<(), Refusal>
        ensures call { Answered K.Kind.meaning self.old.store ISSUE (plain result) self.new.store }
        ensures kept { Kept result self.old.store self.new.store }
        ensures records { Untouched self.old.store self.new.store }
    {
        self.check_not_issued()?;
        self.store.issued = true;
        Ok(())
    }

    /// RECALL: takes the mark away.
    pub fn recall(&mut self) -> Result<(), Refusal>
        ensures call { Answered K.Kind.meaning self.old.store RECALL (plain result) self.new.store }
        ensures kept { Kept result self.old.store self.new.store }
        ensures records { Untouched self.old.store self.new.store }
    {
        if !self.store.issued {
            return Err(Refusal::NotIssued);
        }
        self.store.issued = false;
        Ok(())
    }
}
