ghost use Rattle.std.specs.Prelude.{◌≡◌, ℕ, ◌-◌, ◌<◌, ◌≤◌, true, false, map, length, MatchResult};
ghost use Rattle.network.specs.Climb.{Forest};
ghost use Rattle.network.specs.Offsets.{Carried, Carries, Fits};
ghost use Rattle.search.specs.Parents.{parents};
ghost use Rattle.search.specs.Records.{link_of, graph_of, On};
ghost use Rattle.search.specs.Settled.{Placed, offset, Reached};

use crate::errors::Torn;
use crate::link::Link;
use crate::net::Network;
use crate::offsets::settle_all;
use kind::Kind;

// Whether the offsets carry the link.
pub(crate) fn carried<K: Kind>(
    net: &Network<'_, K::Latency>,
    link: &Link<K::Latency>,
    row: &[K::Total],
) -> bool
    requires size { net.now.n ≤ length row.now }
    requires from { On net.now.n link.now.from }
    requires to { On net.now.n link.now.to }
    requires near { Reached K.Kind.meaning net.now.n row.now }
    ensures yes { result ≡ true → Carried K.Kind.meaning.quantities (offset K.Kind.meaning row.now) (link_of K.Kind.meaning link.now) }
    ensures no { Carried K.Kind.meaning.quantities (offset K.Kind.meaning row.now) (link_of K.Kind.meaning link.now) → result ≡ true }
{
    let a = K::sum(&K::of(&link.wanted), &row[link.from as usize - 1]);
    let b = K::sum(&K::of(&link.measured), &row[link.to as usize - 1]);
    K::same(&a, &b)
}

// Whether the offsets carry every link.
pub(crate) fn all_carried<K: Kind>(net: &Network<'_, K::Latency>, row: &[K::Total]) -> bool
    requires size { net.now.n ≤ length row.now }
    requires near { Reached K.Kind.meaning net.now.n row.now }
    ensures yes { result ≡ true → Carries K.Kind.meaning.quantities (offset K.Kind.meaning row.now) (map (link_of K.Kind.meaning) net.now.links.now) }
    ensures no { Carries K.Kind.meaning.quantities (offset K.Kind.meaning row.now) (map (link_of K.Kind.meaning) net.now.links.now) → result ≡ true }
{
    for link in net.links {
        if !carried::<K>(net, link, row) {
            return false;
        }
    }
    true
}

// Writes the offset of every switch, from its root. They carry every link, or no offsets do. The rows are passed one by
// one: what is known of each before is known of it after, but for those that are written.
pub(crate) fn carry<K: Kind>(
    net: &Network<'_, K::Latency>,
    up: &[u32],
    stack: &mut [u32],
    marks: &mut [u32],
    row: &mut [K::Total],
) -> Result<(), Torn>
    requires forest { Forest (graph_of net.now.links.now) (length net.now.links.now) (parents up.now) }
    requires size { length up.now ≡ net.now.n }
    requires sizes { (net.now.n ≤ length marks.old) × (net.now.n ≤ length row.old) × (net.now.n ≤ length stack.old) }
    ensures placed { (v : ℕ) → On net.now.n v → Placed K.Kind.meaning net.now.links.now up.now row.new v }
    ensures near { Reached K.Kind.meaning net.now.n row.new }
    ensures carries { MatchResult result (λ _. Carries K.Kind.meaning.quantities (offset K.Kind.meaning row.new) (map (link_of K.Kind.meaning) net.now.links.now)) (λ _. Fits K.Kind.meaning.quantities (map (link_of K.Kind.meaning) net.now.links.now) → ⊥) }
{
    settle_all::<K>(net, up, stack, marks, row);
    if all_carried::<K>(net, row) {
        Ok(())
    } else {
        Err(Torn)
    }
}
