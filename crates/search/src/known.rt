ghost use Rattle.std.specs.Prelude.{◌≡◌, ◌*◌, ◌≤◌, length, take, drop, MatchResult, map};
ghost use Rattle.network.specs.Offsets.{Fits};
ghost use Rattle.search.specs.Records.{link_of, On};
ghost use Rattle.search.specs.Known.{Tells, Grounded};

use crate::carries::carry;
use crate::errors::{Torn, Unknown};
use crate::forest::{join, reroot};
use crate::lowest::root_lowest;
use crate::net::Network;
use crate::rows::Rows;
use kind::Kind;

// With i at the root of its tree, the offsets of its group are the differences to it.
fn difference<K: Kind>(
    net: &Network<'_, K::Latency>,
    rows: &mut Rows<'_>,
    offsets: &mut [K::Total],
    i: u32,
    j: u32,
) -> Result<K::Total, Unknown>
    requires size { rows.old.n ≡ net.now.n }
    requires offsets { net.now.n ≤ length offsets.old }
    requires i { On net.now.n i }
    requires j { On net.now.n j }
    ensures { Tells K.Kind.meaning net.now.links.now net.now.n i j result }
{
    join(net, rows.labels, rows.stack, rows.up);
    reroot(net, rows.up, net.links.len(), i);
    carry::<K>(net, rows.up, rows.stack, rows.marks, offsets)?;
    if rows.labels[i as usize - 1] != rows.labels[j as usize - 1] {
        return Err(Unknown::Apart);
    }
    Ok(offsets[j as usize - 1])
}

/// What the links tell of the offsets between switches i and j, the second's less the first's, over rows of which only
/// what n switches need is touched.
pub fn offset_between<K: Kind>(
    net: &Network<'_, K::Latency>,
    i: u32,
    j: u32,
    totals: &mut [K::Total],
    numbers: &mut [u32],
) -> Result<K::Total, Unknown>
    requires totals { 2 * net.now.n ≤ length totals.old }
    requires numbers { 4 * net.now.n ≤ length numbers.old }
    requires i { On net.now.n i }
    requires j { On net.now.n j }
    ensures answer { Tells K.Kind.meaning net.now.links.now net.now.n i j result }
    ensures totals { drop (2 * net.now.n) totals.new ≡ drop (2 * net.now.n) totals.old }
    ensures numbers { drop (4 * net.now.n) numbers.new ≡ drop (4 * net.now.n) numbers.old }
{
    let n = net.n;
    let mut rows = Rows::new(n, &mut numbers[..4 * n]);
    difference::<K>(net, &mut rows, &mut totals[..2 * n], i, j)
}

// With the lowest switch of every group at the root of its tree, the offsets are zero there: whether they carry the links.
fn grounded<K: Kind>(
    net: &Network<'_, K::Latency>,
    rows: &mut Rows<'_>,
    offsets: &mut [K::Total],
) -> Result<(), Torn>
    requires size { rows.old.n ≡ net.now.n }
    requires offsets { net.now.n ≤ length offsets.old }
    ensures { MatchResult result (λ _. Grounded K.Kind.meaning net.now.links.now net.now.n offsets.new) (λ _. Fits K.Kind.meaning.quantities (map (link_of K.Kind.meaning) net.now.links.now) → ⊥) }
{
    join(net, rows.labels, rows.stack, rows.up);
    root_lowest(net, rows.labels, rows.marks, rows.up);
    carry::<K>(net, rows.up, rows.stack, rows.marks, offsets)
}

/// Writes offsets that carry the links, zero at the lowest switch of every group, over rows of which only what n switches
/// need is touched.
pub fn grounded_offsets<K: Kind>(
    net: &Network<'_, K::Latency>,
    totals: &mut [K::Total],
    numbers: &mut [u32],
) -> Result<(), Torn>
    requires totals { 2 * net.now.n ≤ length totals.old }
    requires numbers { 4 * net.now.n ≤ length numbers.old }
    ensures offsets { MatchResult result (λ _. Grounded K.Kind.meaning net.now.links.now net.now.n (take net.now.n totals.new)) (λ _. Fits K.Kind.meaning.quantities (map (link_of K.Kind.meaning) net.now.links.now) → ⊥) }
    ensures totals { drop (2 * net.now.n) totals.new ≡ drop (2 * net.now.n) totals.old }
    ensures numbers { drop (4 * net.now.n) numbers.new ≡ drop (4 * net.now.n) numbers.old }
{
    let n = net.n;
    let mut rows = Rows::new(n, &mut numbers[..4 * n]);
    grounded::<K>(net, &mut rows, &mut totals[..n])
}
