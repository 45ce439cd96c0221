ghost use Rattle.std.specs.Prelude.{◌≡◌, ◌*◌, ◌≤◌, true, map, length, drop, IfErr};
ghost use Rattle.search.specs.Records.{link_of};
ghost use Rattle.search.specs.Settled.{offset};
ghost use Rattle.schedule.specs.Least.{Scheduled};
ghost use Rattle.schedule.specs.Rows.{Near};

use crate::cycle::{find_loop, write_loop};
use crate::rows::Rows;
use crate::settle::settle;
use crate::unrealisable::Unrealisable;
use kind::Kind;
use search::Network;

// The least offsets, in the first places of the row of totals.
fn solve<K: Kind>(
    net: &Network<'_, K::Latency>,
    rows: &mut Rows<'_>,
    row: &mut [K::Total],
    steps: &mut [u32],
) -> Result<(), Unrealisable>
    requires ordered { K.Kind.meaning.ordered ≡ true }
    requires low { 1 ≤ net.now.n }
    requires size { rows.old.n ≡ net.now.n }
    requires totals { 2 * net.now.n ≤ length row.old }
    requires steps { net.now.n ≤ length steps.old }
    ensures short { IfErr result (λ e. e.steps ≤ net.now.n) }
    ensures near { Near K.Kind.meaning net.now.n net.now.n row.new }
    ensures schedule { Scheduled K.Kind.meaning net.now.n (map (link_of K.Kind.meaning) net.now.links.now) (offset K.Kind.meaning row.new) steps.old steps.new result }
{
    let Some(raised) = settle::<K>(net, rows, row) else {
        return Ok(());
    };
    let preds = &*rows.preds;
    rows.marks.fill(0);
    let (u, m) = find_loop(net, preds, rows.marks, raised);
    write_loop(net, preds, steps, u, m);
    Err(Unrealisable { steps: m })
}

/// The least offsets that are not below zero and leave every link's measured latency at zero or above, in the first n
/// totals; or, where no offsets do, the steps of a loop below zero.
pub fn least_offsets<K: Kind>(
    net: &Network<'_, K::Latency>,
    totals: &mut [K::Total],
    numbers: &mut [u32],
    steps: &mut [u32],
) -> Result<(), Unrealisable>
    requires ordered { K.Kind.meaning.ordered ≡ true }
    requires low { 1 ≤ net.now.n }
    requires totals { 2 * net.now.n ≤ length totals.old }
    requires numbers { 4 * net.now.n ≤ length numbers.old }
    requires steps { net.now.n ≤ length steps.old }
    ensures short { IfErr result (λ e. e.steps ≤ net.now.n) }
    ensures near { Near K.Kind.meaning net.now.n net.now.n totals.new }
    ensures schedule { Scheduled K.Kind.meaning net.now.n (map (link_of K.Kind.meaning) net.now.links.now) (offset K.Kind.meaning totals.new) steps.old steps.new result }
    ensures totals { drop (2 * net.now.n) totals.new ≡ drop (2 * net.now.n) totals.old }
    ensures numbers { drop (4 * net.now.n) numbers.new ≡ drop (4 * net.now.n) numbers.old }
{
    let n = net.n;
    let mut rows = Rows::new(n, &mut numbers[..4 * n]);
    solve::<K>(net, &mut rows, &mut totals[..2 * n], steps)
}
