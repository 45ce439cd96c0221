ghost use Rattle.std.specs.Prelude.{◌≡◌, ℕ, ◌+◌, ◌-◌, ◌<◌, ◌≤◌, length, None, ◌≢◌, slice_index};
ghost use Rattle.network.specs.Graph.{place, start, end, Connected, Upto};
ghost use Rattle.search.specs.Joined.{label, Joined};
ghost use Rattle.search.specs.Grouped.{Rising, Leader, Found, under, Grouped};
ghost use Rattle.network.specs.Climb.{Forest};
ghost use Rattle.search.specs.Parents.{parents};
ghost use Rattle.search.specs.Records.{graph_of, On};

use crate::net::Network;
use crate::steps::{far_end, step_up};
use network::Step;

// Makes switch i the root of its tree.
pub(crate) fn reroot<L: Copy>(net: &Network<'_, L>, up: &mut [u32], count: usize, i: u32)
    requires forest { Forest (graph_of net.now.links.now) count (parents up.old) }
    requires size { length up.old ≡ net.now.n }
    requires count { count ≤ length net.now.links.now }
    requires inside { On net.now.n i }
    ensures still { Forest (graph_of net.now.links.now) count (parents up.new) }
    ensures root { parents up.new i ≡ None }
    ensures others { (v : ℕ) → (Connected (graph_of net.now.links.now) (Upto count) i v → ⊥) → parents up.new v ≡ parents up.old v }
{
    let mut x = i;
    // 0 is no step word, so a root's.
    let mut hang: u32 = 0;
    while let Some(s) = step_up(up, x) {
        up[x as usize - 1] = hang;
        hang = s.reversed().word();
        x = far_end(s, net);
    }
    up[x as usize - 1] = hang;
}

// Hangs the tree of the step's start, turned, under the step's end, which is in another tree.
fn hang<L: Copy>(net: &Network<'_, L>, up: &mut [u32], k: usize, s: Step)
    requires forest { Forest (graph_of net.now.links.now) k (parents up.old) }
    requires size { length up.old ≡ net.now.n }
    requires room { k < length net.now.links.now }
    requires next { place s ≡ k + 1 }
    requires apart { Connected (graph_of net.now.links.now) (Upto k) (start (graph_of net.now.links.now) s) (end (graph_of net.now.links.now) s) → ⊥ }
    ensures { Forest (graph_of net.now.links.now) (k + 1) (parents up.new) }
{
    let i = far_end(s.reversed(), net);
    reroot(net, up, k, i);
    up[i as usize - 1] = s.word();
}

// The leader of v's group. The ranks only show that the pointers lead to an end.
fn root(labels: &[u32], ranks: &[u32], v: u32) -> u32
    requires rising { Rising 8192 (length labels.now) (label labels.now) (label ranks.now) }
    requires inside { On (length labels.now) v }
    ensures { Found (length labels.now) (label labels.now) (label ranks.now) v result }
{
    let mut x = v;
    while labels[x as usize - 1] != x {
        x = labels[x as usize - 1];
    }
    x
}

// Puts the group that b leads under a, the leader of another whose rank is no lower. A rank grows only where the two
// are equal, so that it stays below the number of times that its group can have doubled, and pointers lead to an end soon.
fn unite(labels: &mut [u32], ranks: &mut [u32], a: u32, b: u32)
    requires size { length labels.old ≤ length ranks.old }
    requires inside { On (length labels.old) a × On (length labels.old) b }
    requires top { (label labels.old a ≡ a) × (label labels.old b ≡ b) }
    requires apart { a ≢ b }
    requires higher { label ranks.old b ≤ label ranks.old a }
    requires low { label ranks.old a ≤ 8192 }
    ensures rising { (k : ℕ) → Rising k (length labels.old) (label labels.old) (label ranks.old) → Rising (k + 1) (length labels.old) (label labels.new) (label ranks.new) }
    ensures leads { (l : ℕ → ℕ) → Leader (length labels.old) (label labels.old) l → Leader (length labels.old) (label labels.new) (under l b a) }
{
    if ranks[a as usize - 1] == ranks[b as usize - 1] {
        ranks[a as usize - 1] += 1;
    }
    labels[b as usize - 1] = a;
}

// One more link: a joining link puts the group of the lower rank under the other, and hangs its tree there.
fn join_next<L: Copy>(
    net: &Network<'_, L>,
    labels: &mut [u32],
    ranks: &mut [u32],
    up: &mut [u32],
    k: usize,
)
    requires grouped { Grouped (graph_of net.now.links.now) k net.now.n labels.old ranks.old up.old }
    requires sizes { (length labels.old ≡ net.now.n) × (length up.old ≡ net.now.n) × (net.now.n ≤ length ranks.old) }
    requires room { k < length net.now.links.now }
    ensures { Grouped (graph_of net.now.links.now) (k + 1) net.now.n labels.new ranks.new up.new }
{
    let i = far_end(Step::Backward(k + 1), net);
    let j = far_end(Step::Forward(k + 1), net);
    let a = root(labels, ranks, i);
    let b = root(labels, ranks, j);
    if a == b {
        return;
    }
    if ranks[a as usize - 1] < ranks[b as usize - 1] {
        unite(labels, ranks, b, a);
        hang(net, up, k, Step::Forward(k + 1));
    } else {
        unite(labels, ranks, a, b);
        hang(net, up, k, Step::Backward(k + 1));
    }
}

// Every switch alone.
fn scatter(labels: &mut [u32], ranks: &mut [u32], up: &mut [u32])
    requires few { length labels.old ≤ 1024 }
    ensures labels { (v : ℕ) → v < length labels.old → slice_index labels.new v ≡ v + 1 }
    ensures ranks { (v : ℕ) → slice_index ranks.new v ≡ 0 }
    ensures up { (v : ℕ) → slice_index up.new v ≡ 0 }
{
    for (i, label) in labels.iter_mut().enumerate() {
        *label = i as u32 + 1;
    }
    ranks.fill(0);
    up.fill(0);
}

// Points every switch to its leader.
fn flatten(labels: &mut [u32], ranks: &[u32])
    requires few { length labels.old ≤ 1024 }
    requires rising { Rising 8192 (length labels.old) (label labels.old) (label ranks.now) }
    ensures inside { (v : ℕ) → On (length labels.old) v → On (length labels.old) (label labels.new v) }
    ensures leads { (l : ℕ → ℕ) → Leader (length labels.old) (label labels.old) l → (v : ℕ) → On (length labels.old) v → label labels.new v ≡ l v }
{
    // By index, since the row is read while it is written.
    for i in 0..labels.len() {
        labels[i] = root(labels, ranks, i as u32 + 1);
    }
}

// The labels and the forest of all the links; the ranks are for its own use.
pub(crate) fn join<L: Copy>(
    net: &Network<'_, L>,
    labels: &mut [u32],
    ranks: &mut [u32],
    up: &mut [u32],
)
    requires sizes { (length labels.old ≡ net.now.n) × (length up.old ≡ net.now.n) × (net.now.n ≤ length ranks.old) }
    ensures { Joined (graph_of net.now.links.now) (length net.now.links.now) net.now.n labels.new up.new }
{
    scatter(labels, ranks, up);
    for k in 0..net.links.len() {
        join_next(net, labels, ranks, up, k);
    }
    flatten(labels, ranks);
}
