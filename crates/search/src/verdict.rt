ghost use Rattle.std.specs.Prelude.{◌≡◌, ◌*◌, ◌≤◌, true, [], ◌∷◌, ◌++◌, map, length, drop, IfErr};
ghost use Rattle.network.specs.Offsets.{Fits};
ghost use Rattle.search.specs.Records.{link_of, graph_of, On};
ghost use Rattle.search.specs.Joined.{Joined};
ghost use Rattle.search.specs.Verdict.{Shown, Judged};

use crate::carries::{carried, carry};
use crate::errors::Contradiction;
use crate::forest::{join, reroot};
use crate::link::Link;
use crate::net::Network;
use crate::path::climb;
use crate::rows::Rows;
use kind::Kind;

// Whether the links and the new one fit. The labels and the forest of the links are left in the rows.
fn fits_with<K: Kind>(
    net: &Network<'_, K::Latency>,
    rows: &mut Rows<'_>,
    offsets: &mut [K::Total],
    new: &Link<K::Latency>,
) -> bool
    requires size { rows.old.n ≡ net.now.n }
    requires offsets { net.now.n ≤ length offsets.old }
    requires from { On net.now.n new.now.from }
    requires to { On net.now.n new.now.to }
    ensures size { rows.new.n ≡ net.now.n }
    ensures joined { Joined (graph_of net.now.links.now) (length net.now.links.now) net.now.n rows.new.labels.now rows.new.up.now }
    ensures yes { result ≡ true → Fits K.Kind.meaning.quantities (map (link_of K.Kind.meaning) net.now.links.now ++ link_of K.Kind.meaning new.now ∷ []) }
    ensures no { Fits K.Kind.meaning.quantities (map (link_of K.Kind.meaning) net.now.links.now ++ link_of K.Kind.meaning new.now ∷ []) → result ≡ true }
{
    let up = &mut *rows.up;
    join(net, rows.labels, rows.stack, up);
    let Ok(()) = carry::<K>(net, up, rows.stack, rows.marks, offsets) else {
        return false;
    };
    if rows.labels[new.from as usize - 1] != rows.labels[new.to as usize - 1] {
        return true;
    }
    carried::<K>(net, new, offsets)
}

// Writes the steps that lead back from the new link's second switch to its first, and says how many they are.
fn way_back<K: Kind>(
    net: &Network<'_, K::Latency>,
    rows: &mut Rows<'_>,
    new: &Link<K::Latency>,
    steps: &mut [u32],
) -> usize
    requires size { rows.old.n ≡ net.now.n }
    requires from { On net.now.n new.now.from }
    requires to { On net.now.n new.now.to }
    requires joined { Joined (graph_of net.now.links.now) (length net.now.links.now) net.now.n rows.old.labels.now rows.old.up.now }
    requires room { net.now.n ≤ length steps.old }
    ensures short { result ≤ net.now.n }
    ensures shown { Shown K.Kind.meaning.quantities (map (link_of K.Kind.meaning) net.now.links.now) (link_of K.Kind.meaning new.now) steps.old steps.new result }
{
    if rows.labels[new.from as usize - 1] != rows.labels[new.to as usize - 1] {
        return 0;
    }
    reroot(net, rows.up, net.links.len(), new.from);
    climb(net, rows.up, steps, new.to)
}

// Whether the links with a new one fit.
fn judge<K: Kind>(
    net: &Network<'_, K::Latency>,
    rows: &mut Rows<'_>,
    offsets: &mut [K::Total],
    new: &Link<K::Latency>,
    steps: &mut [u32],
) -> Result<(), Contradiction>
    requires size { rows.old.n ≡ net.now.n }
    requires offsets { net.now.n ≤ length offsets.old }
    requires room { net.now.n ≤ length steps.old }
    requires from { On net.now.n new.now.from }
    requires to { On net.now.n new.now.to }
    ensures short { IfErr result (λ e. e.steps ≤ net.now.n) }
    ensures verdict { Judged K.Kind.meaning.quantities (map (link_of K.Kind.meaning) net.now.links.now) (link_of K.Kind.meaning new.now) steps.old steps.new result }
{
    if fits_with::<K>(net, rows, offsets, new) {
        return Ok(());
    }
    Err(Contradiction {
        steps: way_back::<K>(net, rows, new, steps),
    })
}

/// The verdict on a new link, over rows of which only what n switches need is touched.
pub fn link_verdict<K: Kind>(
    net: &Network<'_, K::Latency>,
    new: &Link<K::Latency>,
    totals: &mut [K::Total],
    numbers: &mut [u32],
    steps: &mut [u32],
) -> Result<(), Contradiction>
    requires totals { 2 * net.now.n ≤ length totals.old }
    requires numbers { 4 * net.now.n ≤ length numbers.old }
    requires steps { net.now.n ≤ length steps.old }
    requires from { On net.now.n new.now.from }
    requires to { On net.now.n new.now.to }
    ensures short { IfErr result (λ e. e.steps ≤ net.now.n) }
    ensures verdict { Judged K.Kind.meaning.quantities (map (link_of K.Kind.meaning) net.now.links.now) (link_of K.Kind.meaning new.now) steps.old steps.new result }
    ensures totals { drop (2 * net.now.n) totals.new ≡ drop (2 * net.now.n) totals.old }
    ensures numbers { drop (4 * net.now.n) numbers.new ≡ drop (4 * net.now.n) numbers.old }
{
    let n = net.n;
    let mut rows = Rows::new(n, &mut numbers[..4 * n]);
    judge::<K>(net, &mut rows, &mut totals[..2 * n], new, steps)
}
