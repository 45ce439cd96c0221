ghost use Rattle.std.specs.Prelude.{◌≡◌, ℕ, ◌+◌, ◌-◌, ◌≤◌, length, slice_index};
ghost use Rattle.search.specs.Records.{graph_of, On};
ghost use Rattle.search.specs.Written.{Written};
ghost use Rattle.schedule.specs.Rounds.{trail};
ghost use Rattle.schedule.specs.Rows.{entry, Traced, Circle};

use network::Step;
use search::Network;

// Where the link at p begins.
fn sender<L: Copy>(net: &Network<'_, L>, p: u32) -> u32
    requires low { 1 ≤ p }
    requires high { p ≤ length net.now.links.now }
    ensures { result ≡ (graph_of net.now.links.now).from p }
{
    net.links[p as usize - 1].from
}

// Goes back from v, each time over the link that the switch was raised for, until a switch comes again: that one, and
// how many links it is from there back to it.
pub(crate) fn find_loop<L: Copy>(
    net: &Network<'_, L>,
    preds: &[u32],
    marks: &mut [u32],
    v: u32,
) -> (u32, usize)
    requires sizes { (net.now.n ≤ length preds.now) × (net.now.n ≤ length marks.old) }
    requires clean { (i : ℕ) → slice_index marks.old i ≡ 0 }
    requires inside { On net.now.n v }
    requires traced { Traced (graph_of net.now.links.now) (length net.now.links.now) net.now.n (entry preds.now) v }
    ensures { On net.now.n result.0 × Circle (graph_of net.now.links.now) net.now.n (entry preds.now) v result.0 result.1 }
{
    let mut u = v;
    // The number of the last mark: it is written, and no index.
    let mut t: u32 = 0;
    while marks[u as usize - 1] == 0 {
        t += 1;
        marks[u as usize - 1] = t;
        u = sender(net, preds[u as usize - 1]);
    }
    (u, (t + 1 - marks[u as usize - 1]) as usize)
}

// Writes the m steps that lead round to u. They are found from the last one back.
pub(crate) fn write_loop<L: Copy>(
    net: &Network<'_, L>,
    preds: &[u32],
    steps: &mut [u32],
    u: u32,
    m: usize,
)
    requires size { net.now.n ≤ length preds.now }
    requires room { m ≤ length steps.old }
    requires inside { On net.now.n u }
    requires traced { Traced (graph_of net.now.links.now) (length net.now.links.now) m (entry preds.now) u }
    ensures { Written steps.old steps.new m (trail (graph_of net.now.links.now) (entry preds.now) u m) }
{
    let mut x = u;
    // By index: of what is written through an adapter of `iter_mut` a proof knows nothing.
    for t in (0..m).rev() {
        let p = preds[x as usize - 1];
        steps[t] = Step::Forward(p as usize).word();
        x = sender(net, p);
    }
}
