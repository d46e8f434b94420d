// The VM rows of a cluster record: seven bytes each.
#![tactic(auto, unfolding(crate::specs::Room::place_ok, crate::specs::Room::vm_ok, crate::specs::Room::vm_row))]

ghost use Rattle.std.specs.Prelude.{◌≡◌};
ghost use Rattle.records.specs.Room.{node_count, knows_nowhere, vm_row, place_ok, vm_ok};

use crate::bytes::be24;
use crate::header::Header;
use crate::room::NOWHERE;

impl Header<'_> {
    // Whether a place is a node that there is, or no node where a VM may be on none.
    fn place_sound(&self, place: u8) -> bool
        ensures { result ≡ place_ok (knows_nowhere self.now) (node_count self.now) place }
    {
        usize::from(place) < self.nodes() || self.knows_nowhere() && place == NOWHERE
    }

    // Whether a row has memory and two places that there are.
    pub fn row_sound(&self, row: &[u8; 7]) -> bool
        ensures { result ≡ vm_ok (knows_nowhere self.now) (node_count self.now) (vm_row row.now 0) }
    {
        1 <= be24(row, 0) && self.place_sound(row[5]) && self.place_sound(row[6])
    }
}
