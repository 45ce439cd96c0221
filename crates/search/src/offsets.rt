ghost use Rattle.std.specs.Prelude.{◌≡◌, ℕ, ◌+◌, ◌-◌, ◌<◌, ◌≤◌, length, Some, None, ◌≢◌, slice_index};
ghost use Rattle.network.specs.declared.Step.{Step as Stride};
ghost use Rattle.network.specs.Graph.{place, end};
ghost use Rattle.network.specs.Climb.{Forest};
ghost use Rattle.search.specs.Parents.{parents};
ghost use Rattle.search.specs.Records.{graph_of, On};
ghost use Rattle.search.specs.Settled.{worth, gap, Placed, Settled, Kept};
ghost use Rattle.search.specs.Chain.{Chain};

use crate::net::Network;
use crate::steps::{far_end, step_up};
use kind::Kind;
use network::Step;

// t with one latency more and another less.
fn with<K: Kind>(t: &K::Total, more: &K::Latency, less: &K::Latency) -> K::Total
    ensures { (i : ℕ) → K.Kind.meaning.within i t.now → i + 2 ≤ 16777216 → (K.Kind.meaning.total result ≡ K.Kind.meaning.quantities.plus (K.Kind.meaning.total t.now) (K.Kind.meaning.quantities.plus (K.Kind.meaning.latency more.now) (K.Kind.meaning.quantities.minus (K.Kind.meaning.latency less.now)))) × K.Kind.meaning.within (i + 2) result }
{
    K::sum(t, &K::sum(&K::of(more), &K::negated(&K::of(less))))
}

// The offset before a step, from the offset t behind it.
fn before<K: Kind>(net: &Network<'_, K::Latency>, t: &K::Total, s: Step) -> K::Total
    requires low { 1 ≤ place s }
    requires high { place s ≤ length net.now.links.now }
    ensures { (i : ℕ) → K.Kind.meaning.within i t.now → i + 2 ≤ 16777216 → (K.Kind.meaning.total result ≡ K.Kind.meaning.quantities.plus (K.Kind.meaning.total t.now) (K.Kind.meaning.quantities.minus (worth K.Kind.meaning.quantities (gap K.Kind.meaning net.now.links.now) s))) × K.Kind.meaning.within (i + 2) result }
{
    match s {
        Step::Forward(p) => {
            let link = &net.links[p - 1];
            with::<K>(t, &link.measured, &link.wanted)
        }
        Step::Backward(p) => {
            let link = &net.links[p - 1];
            with::<K>(t, &link.wanted, &link.measured)
        }
    }
}

// Gives w its offset, from that of y, where its step up ends.
fn hand_down<K: Kind>(
    net: &Network<'_, K::Latency>,
    up: &[u32],
    marks: &mut [u32],
    row: &mut [K::Total],
    w: u32,
    y: u32,
)
    requires forest { Forest (graph_of net.now.links.now) (length net.now.links.now) (parents up.now) }
    requires size { length up.now ≡ net.now.n }
    requires sizes { (net.now.n ≤ length marks.old) × (net.now.n ≤ length row.old) }
    requires settled { Settled K.Kind.meaning net.now.links.now net.now.n up.now marks.old row.old }
    requires w { On net.now.n w }
    requires y { On net.now.n y }
    requires above { (s : Stride) × (parents up.now w ≡ Some s) × (end (graph_of net.now.links.now) s ≡ y) }
    requires known { slice_index marks.old (y - 1) ≢ 0 }
    ensures settled { Settled K.Kind.meaning net.now.links.now net.now.n up.now marks.new row.new }
    ensures kept { Kept marks.old marks.new }
    ensures done { slice_index marks.new (w - 1) ≢ 0 }
{
    let Some(s) = step_up(up, w) else {
        return;
    };
    let t = before::<K>(net, &row[y as usize - 1], s);
    row[w as usize - 1] = t;
    marks[w as usize - 1] = 1;
}

// Gives w its offset, a root unless it has a mark.
fn ground<K: Kind>(
    net: &Network<'_, K::Latency>,
    up: &[u32],
    marks: &mut [u32],
    row: &mut [K::Total],
    w: u32,
)
    requires sizes { (net.now.n ≤ length marks.old) × (net.now.n ≤ length row.old) }
    requires settled { Settled K.Kind.meaning net.now.links.now net.now.n up.now marks.old row.old }
    requires w { On net.now.n w }
    requires root { slice_index marks.old (w - 1) ≡ 0 → parents up.now w ≡ None }
    ensures settled { Settled K.Kind.meaning net.now.links.now net.now.n up.now marks.new row.new }
    ensures kept { Kept marks.old marks.new }
    ensures done { slice_index marks.new (w - 1) ≢ 0 }
{
    if marks[w as usize - 1] != 0 {
        return;
    }
    row[w as usize - 1] = K::zero();
    marks[w as usize - 1] = 1;
}

// Stacks the switches on the way up from v, until one is marked or a root: the last one's place.
fn rise<L: Copy>(
    net: &Network<'_, L>,
    up: &[u32],
    marks: &[u32],
    stack: &mut [u32],
    v: u32,
) -> usize
    requires forest { Forest (graph_of net.now.links.now) (length net.now.links.now) (parents up.now) }
    requires size { length up.now ≡ net.now.n }
    requires sizes { (net.now.n ≤ length marks.now) × (net.now.n ≤ length stack.old) }
    requires v { On net.now.n v }
    ensures chain { Chain (graph_of net.now.links.now) net.now.n up.now stack.new result }
    ensures room { result < net.now.n }
    ensures first { slice_index stack.new 0 ≡ v }
    ensures last { slice_index marks.now (slice_index stack.new result - 1) ≡ 0 → parents up.now (slice_index stack.new result) ≡ None }
{
    let mut x = v;
    // Only the end of the way tells how high the stack grows.
    let mut top: usize = 0;
    stack[0] = v;
    while marks[x as usize - 1] == 0 {
        let Some(s) = step_up(up, x) else {
            break;
        };
        x = far_end(s, net);
        top += 1;
        stack[top] = x;
    }
    top
}

// Gives v its offset, and every switch on its way up.
fn settle<K: Kind>(
    net: &Network<'_, K::Latency>,
    up: &[u32],
    stack: &mut [u32],
    marks: &mut [u32],
    row: &mut [K::Total],
    v: u32,
)
    requires forest { Forest (graph_of net.now.links.now) (length net.now.links.now) (parents up.now) }
    requires size { length up.now ≡ net.now.n }
    requires sizes { (net.now.n ≤ length marks.old) × (net.now.n ≤ length row.old) × (net.now.n ≤ length stack.old) }
    requires settled { Settled K.Kind.meaning net.now.links.now net.now.n up.now marks.old row.old }
    requires v { On net.now.n v }
    ensures settled { Settled K.Kind.meaning net.now.links.now net.now.n up.now marks.new row.new }
    ensures kept { Kept marks.old marks.new }
    ensures done { slice_index marks.new (v - 1) ≢ 0 }
{
    let top = rise(net, up, marks, stack, v);
    ground::<K>(net, up, marks, row, stack[top]);
    for i in (0..top).rev() {
        hand_down::<K>(net, up, marks, row, stack[i], stack[i + 1]);
    }
}

// The offset of every switch, from its root.
pub(crate) fn settle_all<K: Kind>(
    net: &Network<'_, K::Latency>,
    up: &[u32],
    stack: &mut [u32],
    marks: &mut [u32],
    row: &mut [K::Total],
)
    requires forest { Forest (graph_of net.now.links.now) (length net.now.links.now) (parents up.now) }
    requires size { length up.now ≡ net.now.n }
    requires sizes { (net.now.n ≤ length marks.old) × (net.now.n ≤ length row.old) × (net.now.n ≤ length stack.old) }
    ensures { (v : ℕ) → On net.now.n v → Placed K.Kind.meaning net.now.links.now up.now row.new v }
{
    marks.fill(0);
    for v in 1..net.n as u32 + 1 {
        settle::<K>(net, up, stack, marks, row, v);
    }
}
