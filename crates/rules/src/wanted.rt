// The target of a cluster: refusals 8 and 9; and whether a placement is the target (19).
ghost use Rattle.std.specs.Prelude.{◌≡◌, ◌||◌};
ghost use Rattle.records.specs.Base.{all};
ghost use Rattle.records.specs.Room.{IsSound, vms_of, groups_of};
ghost use Rattle.rules.specs.Orders.{some};
ghost use Rattle.rules.specs.Rules.{fits_all, target_check};
ghost use Rattle.rules.specs.Verdict.{home};
ghost use Rattle.rules.specs.Inner.{held, clear_of, all_down, group_holds, keeps_in};

use crate::allow::{all_but, only};
use crate::arrays::{NODES, Nodes, PLACES, Placement};
use crate::faults::TargetFault;
use crate::loads::loads_at_rest;
use crate::places::{first_on_node, target_places};
use crate::spread::arrive_apart;
use crate::tally::within_node;
use records::{Cluster, Constraint, Kind};

// 8: whether all VMs at rest on their places fit: the tally of every node is within what is usable of it.
fn places_fit(cluster: &Cluster<'_>, places: &Placement) -> bool
    ensures is { result ≡ fits_all cluster.now (held cluster.now places.now) }
    ensures sound { IsSound cluster.now }
{
    let sums = loads_at_rest(cluster, places);
    (0..cluster.node_count()).all(|d| within_node(cluster, d, sums[d]))
}

// Whether none of the VMs is on a stopped node.
fn list_clear(vms: &[u8], stop: &Nodes, places: &Placement) -> bool
    ensures { result ≡ clear_of stop.now places.now vms.now }
{
    vms.iter().all(|v| {
        let place = usize::from(places[usize::from(*v)]);
        NODES <= place || !stop[place]
    })
}

// Whether some group of a latency constraint has all of these VMs that are on a node.
fn some_group_holds(constraint: &Constraint<'_>, vms: &[u8], places: &Placement) -> bool
    ensures { result ≡ some (group_holds places.now vms.now) (groups_of constraint.now) }
{
    constraint
        .groups()
        .any(|group| list_clear(vms, &all_but(group), places))
}

// Whether none of the VMs of a latency constraint is on a node, or some group has all that are. The first of these leaves out most groups at once.
fn together(constraint: &Constraint<'_>, places: &Placement) -> bool
    ensures { result ≡ (all_down places.now (vms_of constraint.now) || some (group_holds places.now (vms_of constraint.now)) (groups_of constraint.now)) }
{
    let vms = constraint.vms();
    match first_on_node(vms, places) {
        Some(first) => some_group_holds(constraint, &vms[first..], places),
        None => true,
    }
}

// 9: whether the places keep a constraint.
fn kept(constraint: &Constraint<'_>, places: &Placement) -> bool
    ensures { result ≡ keeps_in places.now constraint.now }
{
    match constraint.kind() {
        Kind::Ban => list_clear(constraint.vms(), &only(constraint.nodes()), places),
        Kind::Fence => list_clear(constraint.vms(), &all_but(constraint.nodes()), places),
        Kind::Spread => arrive_apart(constraint.vms(), &mut [false; PLACES], places),
        Kind::Latency => together(constraint, places),
        // Nothing is asked of a placement.
        Kind::Before => true,
    }
}

// 9, of all constraints.
fn all_kept(cluster: &Cluster<'_>, places: &Placement) -> bool
    ensures { result ≡ all (keeps_in places.now) cluster.now.constraints }
{
    cluster
        .constraints()
        .all(|constraint| kept(&constraint, places))
}

// The target's first fault.
pub fn target_check(cluster: &Cluster<'_>) -> Result<(), TargetFault>
    ensures { result ≡ target_check cluster.now }
{
    let places = target_places(cluster);
    if !places_fit(cluster, &places) {
        return Err(TargetFault::Overfull);
    }
    if !all_kept(cluster, &places) {
        return Err(TargetFault::Broken);
    }
    Ok(())
}

// 19: whether every VM is on its target.
pub fn at_home(cluster: &Cluster<'_>, places: &Placement) -> bool
    ensures { result ≡ home cluster.now (held cluster.now places.now) }
{
    (0..cluster.vm_count()).all(|v| places[v] == cluster.target(v))
}
