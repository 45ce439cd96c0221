ghost use Rattle.std.specs.Prelude.{◌≡◌, ◌≤◌, length};
ghost use Rattle.network.specs.Graph.{place, end};
ghost use Rattle.search.specs.Parents.{parents};
ghost use Rattle.search.specs.Records.{graph_of};

use crate::net::Network;
use network::Step;

// The step from switch v up to its parent; none from a root.
pub(crate) fn step_up(up: &[u32], v: u32) -> Option<Step>
    requires low { 1 ≤ v }
    requires high { v ≤ length up.now }
    ensures { result ≡ parents up.now v }
{
    Step::try_from(up[v as usize - 1]).ok()
}

// Where the step ends.
pub(crate) fn far_end<L: Copy>(s: Step, net: &Network<'_, L>) -> u32
    requires low { 1 ≤ place s }
    requires high { place s ≤ length net.now.links.now }
    ensures { result ≡ end (graph_of net.now.links.now) s }
{
    match s {
        Step::Forward(p) => net.links[p - 1].to,
        Step::Backward(p) => net.links[p - 1].from,
    }
}
