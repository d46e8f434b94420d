// The moves of a step while all run: the tally of each node, and refusal 17.
ghost use Rattle.std.specs.Prelude.{◌≡◌, replicate};
ghost use Rattle.rules.specs.Inner.{Ready, Loads, Aimed, no_move, fits_running};

use crate::arrays::{Destinations, NO_MOVE, PLACES, Placement, Sums, VMS};
use crate::tally::{Tally, bears_vm, need_of};
use records::{Cluster, Step};

// The moves of a step, all running: where each VM starts and where it goes. No VM goes to the node it is on.
#[derive(Drop)]
pub struct Running<'a> {
    pub cluster: &'a Cluster<'a>,
    pub places: &'a Placement,
    pub dests: &'a Destinations,
    pub ghost ready: { Ready cluster.now places.now dests.now },
}

impl Running<'_> {
    // The tally of each node.
    pub fn loads(&self) -> Sums
        ensures { Loads self.now.cluster.now self.now.places.now self.now.dests.now result }
    {
        let mut sums = [Tally::EMPTY; PLACES];
        for v in 0..self.cluster.vm_count() {
            let vm = need_of(self.cluster, v);
            let to = usize::from(self.dests[v]);
            sums[to] = sums[to].with(vm);
            let place = usize::from(self.places[v]);
            sums[place] = sums[place].with(vm);
        }
        sums
    }

    // 17: whether each node that is a destination of the step bears its tally, for the VM sent there.
    pub(crate) fn fits(&self, step: &Step<'_>) -> bool
        requires { Aimed self.now.cluster.now step.now }
        ensures { result ≡ fits_running self.now.cluster.now self.now.places.now self.now.dests.now step.now }
    {
        let sums = self.loads();
        let nodes = self.cluster.node_count();
        step.moves().all(|m| {
            let d = usize::from(m.to);
            nodes <= d || bears_vm(self.cluster, d, sums[d], usize::from(m.vm))
        })
    }
}

// The tally of each node with every VM at rest on its place.
pub fn loads_at_rest(cluster: &Cluster<'_>, places: &Placement) -> Sums
    ensures { Loads cluster.now places.now (replicate 256 no_move) result }
{
    let rest = Running {
        cluster,
        places,
        dests: &[NO_MOVE; VMS],
    };
    rest.loads()
}
