ghost use Rattle.std.specs.Prelude.{◌≡◌, ℕ, ◌+◌, ◌<◌, ◌≤◌, length, None};
ghost use Rattle.network.specs.Climb.{Forest};
ghost use Rattle.search.specs.Joined.{label, Labelled, Joined};
ghost use Rattle.search.specs.Parents.{parents};
ghost use Rattle.search.specs.Records.{graph_of, On};
ghost use Rattle.search.specs.Rooted.{First, Rooted};

use crate::forest::reroot;
use crate::net::Network;

// Passes the switch at place i: if its group has not been met, it is the lowest there and becomes the root.
fn root_next<L: Copy>(
    net: &Network<'_, L>,
    labels: &[u32],
    marks: &mut [u32],
    up: &mut [u32],
    i: usize,
)
    requires sizes { (length labels.now ≡ net.now.n) × (length up.old ≡ net.now.n) × (net.now.n ≤ length marks.old) }
    requires labelled { Labelled (graph_of net.now.links.now) (length net.now.links.now) net.now.n (label labels.now) }
    requires inside { (v : ℕ) → On net.now.n v → On net.now.n (label labels.now v) }
    requires rooted { Rooted (graph_of net.now.links.now) (length net.now.links.now) net.now.n labels.now marks.old up.old i }
    requires next { i < net.now.n }
    ensures { Rooted (graph_of net.now.links.now) (length net.now.links.now) net.now.n labels.now marks.new up.new (i + 1) }
{
    let group = labels[i] as usize - 1;
    if marks[group] != 0 {
        return;
    }
    marks[group] = 1;
    reroot(net, up, net.links.len(), i as u32 + 1);
}

// Makes the lowest switch of every group the root of its tree.
pub(crate) fn root_lowest<L: Copy>(
    net: &Network<'_, L>,
    labels: &[u32],
    marks: &mut [u32],
    up: &mut [u32],
)
    requires sizes { (length labels.now ≡ net.now.n) × (length up.old ≡ net.now.n) × (net.now.n ≤ length marks.old) }
    requires joined { Joined (graph_of net.now.links.now) (length net.now.links.now) net.now.n labels.now up.old }
    ensures still { Forest (graph_of net.now.links.now) (length net.now.links.now) (parents up.new) }
    ensures roots { (v : ℕ) → First net.now.n labels.now v → parents up.new v ≡ None }
{
    marks.fill(0);
    for i in 0..net.n {
        root_next(net, labels, marks, up, i);
    }
}
