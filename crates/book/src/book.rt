ghost use Rattle.std.specs.Prelude.{◌≡◌, min, [], map, length};
ghost use Rattle.calls.specs.Calls.{Ran, fresh};
ghost use Rattle.network.specs.Offsets.{Fits};
ghost use Rattle.search.specs.Records.{link_of};
ghost use Rattle.book.specs.Memory.{state_of, records, Held, Sound, Single};

use crate::store::Store;
use kind::Kind;
use search::Link;

/// The standing links of one network, over a lent row of link records. What it holds is told by `state_of`.
#[derive(Drop)]
pub struct Book<'a, K: Kind> {
    pub(crate) store: Store<'a, K::Latency>,
    ghost held: { Held store },
    ghost sound: { Sound store.n (records store) },
    ghost single: { Single (records store) },
    ghost fits: { ∥ Fits K.Kind.meaning.quantities (map (link_of K.Kind.meaning) (records store)) ∥₁ },
}

impl<'a, K: Kind> Book<'a, K> {
    /// A new book: no link stands, it has one switch and is not issued. It has room for as many links as there are
    /// records, 8,192 at most.
    pub fn new(links: &'a mut [Link<K::Latency>]) -> Self
        ensures state { state_of K.Kind.meaning result.store ≡ fresh K.Kind.meaning (min (length links.old) 8192) }
        ensures ran { Ran K.Kind.meaning [] (state_of K.Kind.meaning result.store) }
        ensures records { result.store.links.now ≡ links.old }
    {
        Book {
            store: Store {
                links,
                count: 0,
                n: 1,
                issued: false,
            },
        }
    }

    /// How many switches the book has.
    pub fn switches(&self) -> u32
        ensures { result ≡ self.now.store.n }
    {
        self.store.n
    }
}
