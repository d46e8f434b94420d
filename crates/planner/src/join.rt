// Whether a move can be added to the moves of a step: its own test, at its destination only.
ghost use Rattle.std.specs.Prelude.{◌≡◌, true, ◌<◌, length};
ghost use Rattle.records.specs.Room.{node_of, vm_of, place_ok};
ghost use Rattle.rules.specs.Moments.{bears, with_vm};
ghost use Rattle.planner.specs.Inner.{joins_in, Light};

use crate::board::Board;
use records::Cluster;
use rules::{Destinations, NODES, Tally};

// Whether node d bears a tally with VM v added, for that VM.
fn fits_with(cluster: &Cluster<'_>, here: Tally, v: usize, d: usize) -> bool
    requires vm { v < length cluster.now.vms }
    requires node { d < length cluster.now.nodes }
    requires light { Light here }
    ensures { result ≡ bears (node_of cluster.now d) (with_vm here (vm_of cluster.now v)) (vm_of cluster.now v) }
{
    rules::bears_vm(cluster, d, here.with(rules::need_of(cluster, v)), v)
}

impl Board<'_> {
    // Whether VM v may go to d beside the moves of an array of destinations, `here` being the tally of d with those moves running if d is a
    // node. A VM that waits may go nowhere; to no node nothing else is asked. Returns in turn: as one expression the search for its proof gives up.
    pub fn may_join(&self, dests: &Destinations, here: Tally, v: usize, d: usize) -> bool
        requires vm { v < length self.now.cluster.now.vms }
        requires place { place_ok true (length self.now.cluster.now.nodes) d ≡ true }
        requires light { Light here }
        ensures { result ≡ joins_in self.now.cluster.now self.now.places.now dests.now here v d }
    {
        if self.place(v) == d || self.waits[v] {
            return false;
        }
        if NODES <= d {
            return true;
        }
        if !self.allow[v][d] || !fits_with(self.cluster, here, v, d) {
            return false;
        }
        !self.meets(dests, v, d)
    }
}
