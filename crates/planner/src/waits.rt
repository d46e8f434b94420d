// Which VMs wait at a placement: those that come behind a VM which is off its target.
ghost use Rattle.std.specs.Prelude.{◌≡◌, true, length};
ghost use Rattle.records.specs.Room.{IsSound, constraint_ok};
ghost use Rattle.planner.specs.Inner.{part_held, Waiting};

use records::{Cluster, Constraint, Kind};
use rules::{Placement, VMS};

// For each VM whether it waits.
pub type Waits = [bool; VMS];

// Marks the VM that a constraint makes wait: of a pair the second, if the first is off its target.
fn hold_part(
    cluster: &Cluster<'_>,
    constraint: &Constraint<'_>,
    places: &Placement,
    marks: &mut Waits,
)
    requires { constraint_ok (length cluster.now.vms) (length cluster.now.nodes) constraint.now ≡ true }
    ensures { marks.new ≡ part_held cluster.now places.now marks.old constraint.now }
{
    if let Kind::Before = constraint.kind() {
        let first = usize::from(constraint.first());
        if places[first] != cluster.target(first) {
            marks[usize::from(constraint.second())] = true;
        }
    }
}

// The VMs that wait.
pub fn waiting(cluster: &Cluster<'_>, places: &Placement) -> Waits
    ensures marks { Waiting cluster.now places.now result }
    ensures sound { IsSound cluster.now }
{
    let mut marks = [false; VMS];
    for constraint in cluster.constraints() {
        hold_part(cluster, &constraint, places, &mut marks);
    }
    marks
}
