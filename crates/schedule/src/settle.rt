ghost use Rattle.std.specs.Prelude.{◌≡◌, ◌*◌, ◌≤◌, true, map, length, IfSome, IfNone};
ghost use Rattle.search.specs.Records.{link_of, On};
ghost use Rattle.search.specs.Settled.{offset};
ghost use Rattle.schedule.specs.Least.{Realises, Least};
ghost use Rattle.schedule.specs.Rounds.{After};
ghost use Rattle.schedule.specs.Rows.{entry, state_of, Near, Zero};

use crate::round::round;
use crate::rows::Rows;
use kind::Kind;
use search::Network;

// Every offset is zero.
fn clear<K: Kind>(row: &mut [K::Total], n: usize)
    requires { n ≤ length row.old }
    ensures { Zero K.Kind.meaning n row.new }
{
    // No `fill`: it asks for a clone that cannot fail, which no bound on a kind's totals gives.
    for total in &mut row[..n] {
        *total = K::zero();
    }
}

// Rounds until one raises nothing, n at most: a switch that round n raised, if there is one. It was raised along n
// links, so on the way back from it some switch comes twice.
pub(crate) fn settle<K: Kind>(
    net: &Network<'_, K::Latency>,
    rows: &mut Rows<'_>,
    row: &mut [K::Total],
) -> Option<u32>
    requires ordered { K.Kind.meaning.ordered ≡ true }
    requires low { 1 ≤ net.now.n }
    requires size { rows.old.n ≡ net.now.n }
    requires totals { 2 * net.now.n ≤ length row.old }
    ensures size { rows.new.n ≡ net.now.n }
    ensures near { Near K.Kind.meaning net.now.n net.now.n row.new }
    ensures least { IfNone result (Realises K.Kind.meaning net.now.n (map (link_of K.Kind.meaning) net.now.links.now) (offset K.Kind.meaning row.new) × Least K.Kind.meaning net.now.n (map (link_of K.Kind.meaning) net.now.links.now) (offset K.Kind.meaning row.new)) }
    ensures raised { IfSome result (λ v. On net.now.n v × (entry rows.new.stamps.now v ≡ net.now.n) × After K.Kind.meaning (map (link_of K.Kind.meaning) net.now.links.now) net.now.n net.now.n (state_of K.Kind.meaning row.new rows.new.stamps.now rows.new.preds.now)) }
{
    clear::<K>(row, net.n);
    rows.stamps.fill(0);
    // Any switch: round 1 replaces it.
    let mut raised: u32 = 1;
    for k in 0..net.n {
        raised = round::<K>(net, rows, row, k as u32)?;
    }
    Some(raised)
}
