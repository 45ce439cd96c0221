ghost use Rattle.std.specs.Prelude.{◌≡◌, ◌+◌, ◌*◌, ◌<◌, ◌≤◌, true, map, length, take, drop, MatchOption};
ghost use Rattle.search.specs.Records.{link_of, On};
ghost use Rattle.search.specs.Settled.{offset};
ghost use Rattle.schedule.specs.Least.{Realises};
ghost use Rattle.schedule.specs.Rounds.{After};
ghost use Rattle.schedule.specs.Rows.{entry, state_of, Near, Heard};

use crate::latency::{asked, falls_short};
use crate::rows::Rows;
use kind::Kind;
use search::{Link, Network};

// Copies the first n totals behind themselves in the one row that is lent, for a round to read while it writes.
fn keep<T: Copy>(row: &mut [T], n: usize)
    requires small { n ≤ 1024 }
    requires size { 2 * n ≤ length row.old }
    ensures front { take n row.new ≡ take n row.old }
    ensures behind { take n (drop n row.new) ≡ take n row.old }
{
    row.copy_within(..n, n);
}

// Hears the link at position p: whether its receiver was raised.
fn hear<K: Kind>(
    net: &Network<'_, K::Latency>,
    rows: &mut Rows<'_>,
    row: &mut [K::Total],
    link: &Link<K::Latency>,
    p: u32,
    k: u32,
) -> bool
    requires early { k < 1024 }
    requires size { rows.old.n ≡ net.now.n }
    requires totals { 2 * net.now.n ≤ length row.old }
    requires from { On net.now.n link.now.from }
    requires to { On net.now.n link.now.to }
    requires near { Near K.Kind.meaning net.now.n (k + 1) row.old }
    requires behind { Near K.Kind.meaning net.now.n k (drop net.now.n row.old) }
    ensures size { rows.new.n ≡ net.now.n }
    ensures heard { Heard K.Kind.meaning net.now.n k p link.now row.old row.new rows.old.stamps.now rows.new.stamps.now rows.old.preds.now rows.new.preds.now result }
{
    let sender = link.from as usize - 1;
    let receiver = link.to as usize - 1;
    // A sender that the round before did not raise asks nothing new.
    if rows.stamps[sender] < k {
        return false;
    }
    let from = row[net.n + sender];
    if !falls_short::<K>(&link.measured, &from, &row[receiver]) {
        return false;
    }
    row[receiver] = asked::<K>(&link.measured, &from);
    rows.stamps[receiver] = k + 1;
    rows.preds[receiver] = p;
    true
}

// Round k + 1: every link is heard once, by the offsets of the round before. A switch that was raised, if one was.
pub(crate) fn round<K: Kind>(
    net: &Network<'_, K::Latency>,
    rows: &mut Rows<'_>,
    row: &mut [K::Total],
    k: u32,
) -> Option<u32>
    requires ordered { K.Kind.meaning.ordered ≡ true }
    requires early { k < 1024 }
    requires size { rows.old.n ≡ net.now.n }
    requires totals { 2 * net.now.n ≤ length row.old }
    requires near { Near K.Kind.meaning net.now.n k row.old }
    requires after { After K.Kind.meaning (map (link_of K.Kind.meaning) net.now.links.now) net.now.n k (state_of K.Kind.meaning row.old rows.old.stamps.now rows.old.preds.now) }
    ensures size { rows.new.n ≡ net.now.n }
    ensures near { Near K.Kind.meaning net.now.n (k + 1) row.new }
    ensures after { After K.Kind.meaning (map (link_of K.Kind.meaning) net.now.links.now) net.now.n (k + 1) (state_of K.Kind.meaning row.new rows.new.stamps.now rows.new.preds.now) }
    ensures raised { MatchOption result (Realises K.Kind.meaning net.now.n (map (link_of K.Kind.meaning) net.now.links.now) (offset K.Kind.meaning row.new)) (λ v. On net.now.n v × (entry rows.new.stamps.now v ≡ k + 1)) }
{
    keep(row, net.n);
    let mut raised = None;
    for (i, link) in net.links.iter().enumerate() {
        if hear::<K>(net, rows, row, link, i as u32 + 1, k) {
            raised = Some(link.to);
        }
    }
    raised
}
