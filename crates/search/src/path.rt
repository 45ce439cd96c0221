ghost use Rattle.std.specs.Prelude.{◌≡◌, ◌≤◌, length};
ghost use Rattle.network.specs.Climb.{Forest};
ghost use Rattle.search.specs.Parents.{parents};
ghost use Rattle.search.specs.Records.{graph_of, On};
ghost use Rattle.search.specs.Written.{Climbed};

use crate::net::Network;
use crate::steps::{far_end, step_up};

// Writes the steps of the way up from v, and says how many they are.
pub(crate) fn climb<L: Copy>(net: &Network<'_, L>, up: &[u32], steps: &mut [u32], v: u32) -> usize
    requires forest { Forest (graph_of net.now.links.now) (length net.now.links.now) (parents up.now) }
    requires size { length up.now ≡ net.now.n }
    requires inside { On net.now.n v }
    requires room { net.now.n ≤ length steps.old }
    ensures short { result ≤ net.now.n }
    ensures climbed { Climbed (graph_of net.now.links.now) up.now v steps.old steps.new result }
{
    let mut x = v;
    // Only the end of the way tells how many steps it has.
    let mut m: usize = 0;
    while let Some(s) = step_up(up, x) {
        steps[m] = s.word();
        m += 1;
        x = far_end(s, net);
    }
    m
}
