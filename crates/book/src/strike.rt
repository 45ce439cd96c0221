ghost use Rattle.std.specs.Prelude.{◌≡◌, drop};
ghost use Rattle.calls.specs.State.{STRIKE};
ghost use Rattle.book.specs.Memory.{plain, Answered, Kept};

use crate::book::Book;
use calls::Refusal;
use kind::Kind;

impl<'a, K: Kind> Book<'a, K> {
    /// STRIKE: takes out the standing link between the two switches; the later ones move up by one.
    pub fn strike(&mut self, from: u32, to: u32) -> Result<(), Refusal>
        ensures call { Answered K.Kind.meaning self.old.store (STRIKE from to) (plain result) self.new.store }
        ensures kept { Kept result self.old.store self.new.store }
        ensures records { drop self.old.store.count self.new.store.links.now ≡ drop self.old.store.count self.old.store.links.now }
    {
        self.check_not_issued()?;
        self.check_inside(from, to)?;
        let at = self.store.find(from, to).ok_or(Refusal::NotStanding)?;
        self.store.remove(at);
        Ok(())
    }
}
