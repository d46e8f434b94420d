// 33: whether a VM moves only while the one that comes before it is at rest on its target.
ghost use Rattle.std.specs.Prelude.{◌≡◌, true, ◌<◌, length};
ghost use Rattle.records.specs.Room.{constraint_ok};
ghost use Rattle.rules.specs.Inner.{pair_in_turn, turn_ok};

use crate::arrays::NO_MOVE;
use crate::loads::Running;
use records::{Constraint, Kind};

impl Running<'_> {
    // Of two VMs: the second has no move, or the first has none and is on its target.
    fn pair_in_turn(&self, first: u8, second: u8) -> bool
        requires first { first < length self.now.cluster.now.vms }
        requires second { second < length self.now.cluster.now.vms }
        ensures { result ≡ pair_in_turn self.now.cluster.now self.now.places.now self.now.dests.now first second }
    {
        let (first, second) = (usize::from(first), usize::from(second));
        self.dests[second] == NO_MOVE
            || self.dests[first] == NO_MOVE && self.places[first] == self.cluster.target(first)
    }

    // The same of a constraint: only one kind has VMs that wait.
    pub(crate) fn turn_kept(&self, constraint: &Constraint<'_>) -> bool
        requires { constraint_ok (length self.now.cluster.now.vms) (length self.now.cluster.now.nodes) constraint.now ≡ true }
        ensures { result ≡ turn_ok self.now.cluster.now self.now.places.now self.now.dests.now constraint.now }
    {
        match constraint.kind() {
            Kind::Before => self.pair_in_turn(constraint.first(), constraint.second()),
            _ => true,
        }
    }
}
