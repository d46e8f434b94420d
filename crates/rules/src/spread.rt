// 18: whether in a spread a moved VM meets a mate, with every move running. One pass marks where the VMs start, one their arrivals; a list
// none of whose VMs arrives needs neither.
ghost use Rattle.std.specs.Prelude.{◌≡◌};
ghost use Rattle.rules.specs.Inner.{start_marks, go_unmet, list_unmet, spread_ok};

use crate::arrays::{Destinations, Marks, NODES, PLACES, Placement};
use crate::loads::Running;
use crate::places::first_on_node;
use records::{Constraint, Kind};

// Marks where the VMs start.
fn mark_starts(vms: &[u8], places: &Placement, marks: &mut Marks)
    ensures { marks.new ≡ start_marks marks.old places.now vms.now }
{
    for &v in vms {
        marks[usize::from(places[usize::from(v)])] = true;
    }
}

// Whether each VM that arrives at a node finds it unmarked; it is then marked.
pub fn arrive_apart(vms: &[u8], marks: &mut Marks, dests: &Destinations) -> bool
    ensures { result ≡ go_unmet marks.old dests.now vms.now }
{
    for &v in vms {
        let to = usize::from(dests[usize::from(v)]);
        if to < NODES {
            if marks[to] {
                return false;
            }
            marks[to] = true;
        }
    }
    true
}

// Whether the VMs of one spread arrive apart: no two at one node, and none where one starts.
fn list_unmet(vms: &[u8], places: &Placement, dests: &Destinations) -> bool
    ensures { result ≡ list_unmet places.now dests.now vms.now }
{
    let Some(first) = first_on_node(vms, dests) else {
        return true;
    };
    let mut marks = [false; PLACES];
    mark_starts(vms, places, &mut marks);
    arrive_apart(&vms[first..], &mut marks, dests)
}

impl Running<'_> {
    // The same of a constraint: only a spread has mates.
    pub(crate) fn spread_kept(&self, constraint: &Constraint<'_>) -> bool
        ensures { result ≡ spread_ok self.now.places.now self.now.dests.now constraint.now }
    {
        match constraint.kind() {
            Kind::Spread => list_unmet(constraint.vms(), self.places, self.dests),
            _ => true,
        }
    }
}
