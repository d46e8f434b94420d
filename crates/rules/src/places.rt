// Placements: where each VM is, as an array of 256 places.
ghost use Rattle.std.specs.Prelude.{◌≡◌, ◌≤◌, length};
ghost use Rattle.records.specs.Plan.{step_at, step_end};
ghost use Rattle.rules.specs.Moments.{current_of, target_of, after};
ghost use Rattle.std.specs.List.{position};
ghost use Rattle.rules.specs.Inner.{array_of, on_some_node};

use crate::arrays::{NODES, Placement, VMS};
use records::{Cluster, Moves, Step, moves_at};

// Where the VMs are.
pub fn current_places(cluster: &Cluster<'_>) -> Placement
    ensures { result ≡ array_of (current_of cluster.now) }
{
    let mut places = [0u8; VMS];
    for v in 0..cluster.vm_count() {
        places[v] = cluster.current(v);
    }
    places
}

// Where the VMs are wanted. The same loop over another field: with the field as a closure the two would be no shorter.
pub fn target_places(cluster: &Cluster<'_>) -> Placement
    ensures { result ≡ array_of (target_of cluster.now) }
{
    let mut places = [0u8; VMS];
    for v in 0..cluster.vm_count() {
        places[v] = cluster.target(v);
    }
    places
}

// Where the VMs are after moves.
#[tactic(auto, unfolding(crate::specs::Moments::after))]
fn settled(moves: Moves<'_>, mut places: Placement) -> Placement
    ensures { result ≡ after places moves.entry }
{
    for m in moves {
        places[usize::from(m.vm)] = m.to;
    }
    places
}

// Where the VMs are after a step. From an array of NO_MOVE these are its destinations.
pub fn moved(step: &Step<'_>, places: Placement) -> Placement
    ensures { result ≡ after places step.now }
{
    settled(step.moves(), places)
}

// The same of the step at a place of a plan, be the plan whole or not.
pub fn moved_at(plan: &[u8], at: usize, places: Placement) -> Placement
    requires { step_end plan.now at ≤ length plan.now }
    ensures { result ≡ after places (step_at plan.now at) }
{
    settled(moves_at(plan, at), places)
}

// Where in a list the first VM stands whose place, or destination, is a node.
pub fn first_on_node(vms: &[u8], places: &Placement) -> Option<usize>
    ensures { result ≡ position (on_some_node places.now) vms.now }
{
    vms.iter()
        .position(|v| usize::from(places[usize::from(*v)]) < NODES)
}
