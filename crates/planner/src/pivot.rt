// The pivot, as an array of destinations with one move, if a pivot is useful. It is looked for only where no direct move is sound:
// there, whether a pivot helps does not depend on its node, so the lowest sound node of a VM is tried and no other.
ghost use Rattle.std.specs.Prelude.{◌≡◌, [], ◌∷◌, ◌<◌, length, replicate};
ghost use Rattle.rules.specs.Rules.{sound_step};
ghost use Rattle.rules.specs.Inner.{held, Loads};
ghost use Rattle.planner.specs.Picks.{moving, direct_step, pivot_step, vms_in, nodes_in};
ghost use Rattle.planner.specs.Inner.{Rested, aside, pivot_node, comer, comes_to, useful_node, array_for};

use crate::board::Board;
use rules::{Destinations, NO_MOVE, NODES, Sums, Tally, VMS};

impl Board<'_> {
    // Whether moving VM v alone to node d is a sound step, `here` being the tally of d with all VMs at rest.
    fn goes_alone(&self, here: Tally, v: usize, d: usize) -> bool
        requires vm { v < length self.now.cluster.now.vms }
        requires node { d < length self.now.cluster.now.nodes }
        requires rested { Rested self.now.cluster.now self.now.places.now d here }
        ensures { result ≡ sound_step self.now.cluster.now (held self.now.cluster.now self.now.places.now) (moving v d ∷ []) }
    {
        self.may_join(&[NO_MOVE; VMS], here, v, d)
    }

    // The same, but not to its target.
    fn goes_aside(&self, here: Tally, v: usize, d: usize) -> bool
        requires vm { v < length self.now.cluster.now.vms }
        requires node { d < length self.now.cluster.now.nodes }
        requires rested { Rested self.now.cluster.now self.now.places.now d here }
        ensures { result ≡ aside self.now.cluster.now (held self.now.cluster.now self.now.places.now) v d }
    {
        self.target(v) != d && self.goes_alone(here, v, d)
    }

    // The lowest node that VM v may go to alone, its target left out.
    fn pivot_node(&self, sums: &Sums, v: usize) -> Option<usize>
        requires sums { Loads self.now.cluster.now self.now.places.now (replicate 256 64) sums.now }
        requires vm { v < length self.now.cluster.now.vms }
        ensures { result ≡ pivot_node self.now.cluster.now (held self.now.cluster.now self.now.places.now) v (nodes_in self.now.cluster.now) }
    {
        (0..self.cluster.node_count()).find(|d| self.goes_aside(sums[*d], v, *d))
    }

    // Whether VM u is not v, is wanted on node p, and may go there alone.
    fn comes(&self, here: Tally, v: usize, p: usize, u: usize) -> bool
        requires vm { u < length self.now.cluster.now.vms }
        requires node { p < length self.now.cluster.now.nodes }
        requires rested { Rested self.now.cluster.now self.now.places.now p here }
        ensures { result ≡ comer self.now.cluster.now (held self.now.cluster.now self.now.places.now) v p u }
    {
        self.target(u) == p && u != v && self.goes_alone(here, u, p)
    }

    // Whether some VM other than v may go alone to node p, its target.
    fn some_comes(&self, v: usize, p: usize) -> bool
        requires { p < length self.now.cluster.now.nodes }
        ensures { result ≡ comes_to self.now.cluster.now (held self.now.cluster.now self.now.places.now) v p (vms_in self.now.cluster.now) }
    {
        let here = rules::loads_at_rest(self.cluster, self.places)[p];
        (0..self.cluster.vm_count()).any(|u| self.comes(here, v, p, u))
    }

    // The node of VM v's useful pivot. A VM that is down is not pivoted.
    fn useful_node(&self, sums: &Sums, v: usize) -> Option<usize>
        requires sums { Loads self.now.cluster.now self.now.places.now (replicate 256 64) sums.now }
        requires vm { v < length self.now.cluster.now.vms }
        requires none { direct_step self.now.cluster.now (held self.now.cluster.now self.now.places.now) ≡ [] }
        ensures { result ≡ useful_node self.now.cluster.now (held self.now.cluster.now self.now.places.now) v (nodes_in self.now.cluster.now) }
    {
        let p = self.place(v);
        if p == self.target(v) || NODES <= p {
            return None;
        }
        let d = self.pivot_node(sums, v)?;
        // A node's number is below 64: nothing is cut off.
        let mut places = *self.places;
        places[v] = d as u8;
        let then = Board {
            cluster: self.cluster,
            allow: self.allow,
            pairs: self.pairs,
            waits: self.waits,
            places: &places,
        };
        then.some_comes(v, p).then_some(d)
    }

    // The first useful pivot, VMs tried by number and for each its nodes by number. A loop: in `find_map` the closure would make the array, with its cast.
    pub fn pivot_step(&self) -> Option<Destinations>
        requires { direct_step self.now.cluster.now (held self.now.cluster.now self.now.places.now) ≡ [] }
        ensures { result ≡ array_for (pivot_step self.now.cluster.now (held self.now.cluster.now self.now.places.now)) }
    {
        let sums = rules::loads_at_rest(self.cluster, self.places);
        for v in 0..self.cluster.vm_count() {
            if let Some(d) = self.useful_node(&sums, v) {
                let mut dests = [NO_MOVE; VMS];
                dests[v] = d as u8;
                return Some(dests);
            }
        }
        None
    }
}
