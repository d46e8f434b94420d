// A step against a placement: refusals 15, 27, 16, 17, 18 and 33.
ghost use Rattle.std.specs.Prelude.{◌≡◌, ◌<◌, length};
ghost use Rattle.records.specs.Room.{IsSound};
ghost use Rattle.rules.specs.Rules.{aims, named, is_place, sourced, permitted, step_check};
ghost use Rattle.rules.specs.Inner.{Held, Placed, running_check, held, Aimed, Allows};

use crate::arrays::{AllowTable, NO_MOVE, Placement, VMS};
use crate::faults::StepFault;
use crate::loads::Running;
use crate::places::moved;
use records::{Cluster, NOWHERE, Source, Step};

// Whether VM v can be sent to d: to a node, or to no node if it is wanted there.
#[tactic(auto, using(crate::proofs::Laws::Places::target_at), unfolding(crate::specs::Rules::aims))]
fn can_send(cluster: &Cluster<'_>, v: usize, d: u8) -> bool
    requires { v < length cluster.now.vms }
    ensures { result ≡ aims cluster.now v d }
{
    usize::from(d) < cluster.node_count() || (d == NOWHERE && cluster.target(v) == NOWHERE)
}

// 15: whether each VM is there, the VMs rise, each can be sent to its destination, and no destination is its VM's place.
#[tactic(auto, using(crate::proofs::Laws::Fit::held_at), unfolding(crate::specs::Rules::named))]
pub fn well_named(cluster: &Cluster<'_>, step: &Step<'_>, places: &Placement) -> bool
    ensures is { result ≡ named cluster.now (held cluster.now places.now) 0 step.now }
    ensures sound { IsSound cluster.now }
{
    let vms = cluster.vm_count();
    let mut least: usize = 0;
    for m in step.moves() {
        let v = usize::from(m.vm);
        if v < least || vms <= v || !can_send(cluster, v, m.to) || m.to == places[v] {
            return false;
        }
        least = v + 1;
    }
    true
}

// Whether a source that is named is a place.
#[tactic(auto, unfolding(crate::specs::Rules::is_place))]
fn is_place(source: Source, place: u8) -> bool
    ensures { result ≡ is_place source place }
{
    match source {
        Source::Unnamed => true,
        Source::Named(named) => named == place,
    }
}

// 27: whether each source that is named is its VM's place.
#[tactic(auto, unfolding(crate::specs::Rules::sourced, records::specs::Base::all))]
pub fn well_sourced(step: &Step<'_>, places: &Placement) -> bool
    ensures { result ≡ sourced places.now step.now }
{
    step.moves()
        .all(|m| is_place(m.source, places[usize::from(m.vm)]))
}

// 16: whether the table allows each move to a node.
pub fn moves_allowed(cluster: &Cluster<'_>, step: &Step<'_>, table: &AllowTable) -> bool
    requires aimed { Aimed cluster.now step.now }
    requires table { Allows cluster.now table.now }
    ensures { result ≡ permitted cluster.now step.now }
{
    let nodes = cluster.node_count();
    step.moves().all(|m| {
        let d = usize::from(m.to);
        nodes <= d || table[usize::from(m.vm)][d]
    })
}

// 17, 18 and 33, of a step that is well named and allowed.
fn running_check(
    cluster: &Cluster<'_>,
    step: &Step<'_>,
    places: &Placement,
) -> Result<(), StepFault>
    requires { Held cluster.now places.now step.now }
    ensures { result ≡ running_check cluster.now (held cluster.now places.now) step.now }
{
    let dests = moved(step, [NO_MOVE; VMS]);
    let running = Running {
        cluster,
        places,
        dests: &dests,
    };
    if !running.fits(step) {
        return Err(StepFault::Misfit);
    }
    running.bound_check()
}

// The first fault of a step, from a placement copied for it.
pub fn step_check(
    cluster: &Cluster<'_>,
    step: &Step<'_>,
    places: Placement,
    table: &AllowTable,
) -> Result<(), StepFault>
    requires table { Allows cluster.now table.now }
    requires placed { Placed cluster.now places }
    ensures { result ≡ step_check cluster.now (held cluster.now places) step.now }
{
    if !well_named(cluster, step, &places) {
        return Err(StepFault::Misnamed);
    }
    if !well_sourced(step, &places) {
        return Err(StepFault::Elsewhere);
    }
    if !moves_allowed(cluster, step, table) {
        return Err(StepFault::Forbidden);
    }
    running_check(cluster, step, &places)
}
