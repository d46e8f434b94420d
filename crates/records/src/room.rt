// A cluster that was read, in place: its counts, nodes and VMs.
#![tactic(auto, using(crate::proofs::Laws::Reading::nodes_of_view, crate::proofs::Laws::Reading::vms_of_view, crate::proofs::Laws::Reading::current_of_view, crate::proofs::Laws::Cluster::whole_long))]

ghost use Rattle.std.specs.Prelude.{◌≡◌, true, IfOk, ◌+◌, ◌*◌, ◌/◌, ◌≤◌, ◌<◌, ◌^◌, length, set, Ok};
ghost use Rattle.records.specs.Inner.{WasRead, current_in};
ghost use Rattle.records.specs.Room.{Room, IsSound, KnownPlaces, cluster_read, node_count, vm_count, vms_start, current_at, room_at, node_of, vm_of, most_reserve, usable, place_ok, cluster_check};

use crate::bytes::{be16, be24};
use crate::cluster::cluster_check;
use crate::faults::ReadFault;
use crate::header::Header;
use crate::walk::Constraints;
use std::marker::Model;

// The most percent of each node that can be kept free.
pub const MOST_RESERVE: u64 = 90;

// The place of a VM that is on no node.
pub const NOWHERE: u8 = 255;

// Where the row of node d starts.
fn node_row(s: &[u8], d: usize) -> usize
    requires { (cluster_check s.now ≡ Ok tt) × (d < node_count s.now) }
    ensures { (result ≡ 11 + d * 5) × (result + 5 ≤ length s.now) }
{
    11 + d * 5
}

// Where the row of VM v starts.
fn vm_row(s: &[u8], v: usize) -> usize
    requires { (cluster_check s.now ≡ Ok tt) × (v < vm_count s.now) }
    ensures { (result ≡ vms_start s.now + v * 7) × (result + 7 ≤ length s.now) }
{
    Header { bytes: s }.vms_start() + v * 7
}

// Where the byte with the current place of VM v stands.
pub fn current_at(s: &[u8], v: usize) -> usize
    requires { (cluster_check s.now ≡ Ok tt) × (v < vm_count s.now) }
    ensures { (result ≡ current_at s.now v) × (result < length s.now) }
{
    vm_row(s, v) + 5
}

// What is usable of an amount when so many percent of it are kept, rounded down.
#[tactic(auto, using(crate::proofs::Laws::Reserve::share_fits), unfolding(crate::specs::Room::usable))]
fn usable_of(reserve: u64, amount: u64) -> u64
    requires { (reserve ≤ most_reserve) × (amount < 2 ^ 24) }
    ensures { result ≡ usable reserve amount }
{
    amount * (100 - reserve) / 100
}

// A cluster that was read: an undamaged record, and the percent of each node that is kept free.
#[derive(Drop)]
pub struct Cluster<'a> {
    bytes: &'a [u8],
    reserve: u64,
}

impl<'a> Model for Cluster<'a> {
    ghost Value = { Room };

    ghost view = { λ c. room_at c.reserve c.bytes.now };

    ghost invariant = { λ c. WasRead c.reserve c.bytes.now };
}

// A method for each field of a row: they share `node_row` and `vm_row`, and a field that is passed would be no shorter.
impl<'a> Cluster<'a> {
    // In place at each call, so that a reserve that is not taken is told before anything is called.
    #[inline(always)]
    pub fn read(reserve: u64, bytes: &'a [u8]) -> Result<Cluster<'a>, ReadFault>
        ensures read { result ≡ cluster_read reserve bytes.now }
        ensures sound { IfOk result IsSound }
        ensures places { IfOk result (KnownPlaces bytes.now) }
    {
        if MOST_RESERVE < reserve {
            return Err(ReadFault::Reserve);
        }
        cluster_check(bytes)?;
        Ok(Cluster { bytes, reserve })
    }

    // The same of a record that is known to be undamaged, and of a reserve that is known to be taken: nothing is tested again.
    pub fn whole(reserve: u64, bytes: &'a [u8]) -> Cluster<'a>
        requires taken { reserve ≤ most_reserve }
        requires whole { cluster_check bytes.now ≡ Ok tt }
        ensures room { result ≡ room_at reserve bytes.now }
        ensures places { KnownPlaces bytes.now result }
    {
        Cluster { bytes, reserve }
    }

    pub fn node_count(&self) -> usize
        ensures count { result ≡ length self.now.nodes }
        ensures sound { IsSound self.now }
    {
        Header { bytes: self.bytes }.nodes()
    }

    pub fn vm_count(&self) -> usize
        ensures count { result ≡ length self.now.vms }
        ensures sound { IsSound self.now }
    {
        Header { bytes: self.bytes }.vms()
    }

    // The usable memory of node d.
    pub fn node_memory(&self, d: usize) -> u64
        requires { d < length self.now.nodes }
        ensures { result ≡ (node_of self.now d).memory }
    {
        let memory = be24(self.bytes, node_row(self.bytes, d));
        usable_of(self.reserve, u64::from(memory))
    }

    // The usable CPU of node d.
    pub fn node_cpu(&self, d: usize) -> u64
        requires { d < length self.now.nodes }
        ensures { result ≡ (node_of self.now d).cpu }
    {
        let cpu = be16(self.bytes, node_row(self.bytes, d) + 3);
        usable_of(self.reserve, u64::from(cpu))
    }

    pub fn vm_memory(&self, v: usize) -> u64
        requires { v < length self.now.vms }
        ensures memory { result ≡ (vm_of self.now v).memory }
        ensures least { 1 ≤ result }
        ensures most { result < 2 ^ 24 }
    {
        u64::from(be24(self.bytes, vm_row(self.bytes, v)))
    }

    pub fn vm_cpu(&self, v: usize) -> u64
        requires { v < length self.now.vms }
        ensures cpu { result ≡ (vm_of self.now v).cpu }
        ensures most { result < 2 ^ 16 }
    {
        u64::from(be16(self.bytes, vm_row(self.bytes, v) + 3))
    }

    // Where VM v is: a node, or NOWHERE.
    pub fn current(&self, v: usize) -> u8
        requires { v < length self.now.vms }
        ensures current { result ≡ (vm_of self.now v).current }
        ensures place { place_ok true (length self.now.nodes) result ≡ true }
    {
        self.bytes[current_at(self.bytes, v)]
    }

    // Where VM v is wanted.
    pub fn target(&self, v: usize) -> u8
        requires { v < length self.now.vms }
        ensures target { result ≡ (vm_of self.now v).target }
        ensures place { place_ok true (length self.now.nodes) result ≡ true }
    {
        self.bytes[vm_row(self.bytes, v) + 6]
    }

    // Writes a place into a copy of the record, as the one where VM v is; no other byte is touched.
    pub fn put_place(&self, v: usize, place: u8, copy: &mut [u8])
        requires vm { v < length self.now.vms }
        requires within { current_in self.now v < length copy.old }
        ensures { copy.new ≡ set copy.old (current_in self.now v) place }
    {
        copy[current_at(self.bytes, v)] = place;
    }

    pub fn constraints(&self) -> Constraints<'a>
        ensures constraints { result ≡ self.now.constraints }
        ensures sound { IsSound self.now }
    {
        Constraints {
            parts: Header { bytes: self.bytes }.parts(),
        }
    }
}
