// Whether a cluster record is whole: refusals 1 to 7, in that order.
ghost use Rattle.std.specs.Prelude.{◌≡◌, ◌≤◌, eqb, length};
ghost use Rattle.records.specs.Base.{all};
ghost use Rattle.records.specs.Room.{node_count, vm_count, constraint_count, constraints_start, room_of, parts_of, parts_end, knows_nowhere, vm_ok, well_formed, cluster_check, ClusterRead};
ghost use Rattle.records.specs.Inner.{row_vms};

use crate::constraints::constraint_sound;
use crate::faults::ClusterFault;
use crate::header::{Header, version_known};
use crate::walk::{Parts, constraints_fill};

impl<'a> Header<'a> {
    // 5: whether rows and constraints fill the record.
    #[tactic(auto, using(crate::proofs::Laws::Parts::fills_none, crate::proofs::Laws::Parts::fills_rest))]
    fn filled(&self) -> bool
        ensures { result ≡ eqb (parts_end self.now (constraints_start self.now) (constraint_count self.now)) (length self.now) }
    {
        let count = self.constraints();
        self.bytes
            .get(self.constraints_start()..)
            .is_some_and(|constraints| constraints_fill(constraints, count))
    }

    // The constraints of a record that they fill, part by part.
    pub fn parts(&self) -> Parts<'a>
        requires { parts_end self.now (constraints_start self.now) (constraint_count self.now) ≡ length self.now }
        ensures { result ≡ parts_of self.now }
    {
        let start = self.constraints_start();
        Parts {
            rest: &self.bytes[start..],
            left: self.constraints(),
        }
    }

    // The rows of the VMs.
    fn vm_rows(&self) -> &'a [[u8; 7]]
        requires { constraints_start self.now ≤ length self.now }
        ensures { row_vms result.now ≡ (room_of self.now).vms }
    {
        let start = self.vms_start();
        let end = self.constraints_start();
        self.bytes[start..end].as_chunks().0
    }

    // 6: whether the VM rows are sound.
    fn vms_sound(&self) -> bool
        requires { constraints_start self.now ≤ length self.now }
        ensures { result ≡ all (vm_ok (knows_nowhere self.now) (node_count self.now)) (room_of self.now).vms }
    {
        self.vm_rows().iter().all(|row| self.row_sound(row))
    }

    // 7: whether the constraints are well formed.
    fn parts_sound(&self) -> bool
        requires { (parts_end self.now (constraints_start self.now) (constraint_count self.now) ≡ length self.now) × (node_count self.now ≤ 64) }
        ensures { result ≡ all (well_formed (vm_count self.now) (node_count self.now)) (parts_of self.now) }
    {
        let vms = self.vms();
        let nodes = self.nodes();
        self.parts().all(|part| constraint_sound(part, vms, nodes))
    }
}

// Whether a cluster record is whole, or its first fault in checking order.
#[tactic(auto, using(crate::proofs::Laws::Cluster::read_as_is), unfolding(crate::specs::Room::cluster_check))]
pub fn cluster_check(s: &[u8]) -> Result<(), ClusterFault>
    ensures { ClusterRead s.now result }
{
    if s.len() < 11 {
        return Err(ClusterFault::TooShort);
    }
    if !version_known(s[0]) {
        return Err(ClusterFault::Version);
    }
    let header = Header { bytes: s };
    if !header.length_right() {
        return Err(ClusterFault::Length);
    }
    if !header.counts_within() {
        return Err(ClusterFault::Counts);
    }
    if !header.filled() {
        return Err(ClusterFault::Fill);
    }
    if !header.vms_sound() {
        return Err(ClusterFault::VmRow);
    }
    if !header.parts_sound() {
        return Err(ClusterFault::Constraint);
    }
    Ok(())
}
