// The direct step, as an array of destinations.
ghost use Rattle.std.specs.Prelude.{◌≡◌};
ghost use Rattle.rules.specs.Inner.{held, dests_from};
ghost use Rattle.planner.specs.Picks.{direct_step};

use crate::board::Board;
use rules::{Destinations, NO_MOVE, VMS};

impl Board<'_> {
    // The VMs in turn, each sent to its target, a node or none, if that keeps the step sound. The sums are those with every move so far running.
    // An array and no Option: the array is what is written, and its one caller asks whether it has a move.
    pub fn direct_step(&self) -> Destinations
        ensures { result ≡ dests_from (direct_step self.now.cluster.now (held self.now.cluster.now self.now.places.now)) }
    {
        let mut dests = [NO_MOVE; VMS];
        let mut sums = rules::loads_at_rest(self.cluster, self.places);
        for v in 0..self.cluster.vm_count() {
            let to = self.cluster.target(v);
            let d = usize::from(to);
            let here = sums[d];
            if self.may_join(&dests, here, v, d) {
                sums[d] = here.with(rules::need_of(self.cluster, v));
                dests[v] = to;
            }
        }
        dests
    }
}
