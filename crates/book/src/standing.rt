ghost use Rattle.std.specs.Prelude.{◌≡◌};
ghost use Rattle.book.specs.Memory.{records};

use crate::book::Book;
use kind::Kind;
use search::Network;

impl<'a, K: Kind> Book<'a, K> {
    // The standing links, for a search.
    pub(crate) fn network(&self) -> Network<'_, K::Latency>
        ensures links { result.links.now ≡ records self.now.store }
        ensures n { result.n ≡ self.now.store.n }
    {
        Network {
            links: &self.store.links[..self.store.count],
            n: self.store.n as usize,
        }
    }
}
