// Headers: the version and the stated length of either record, and the header of a cluster record with its counts.
#![tactic(auto, unfolding(crate::specs::Bytes::known_version, crate::specs::Room::knows_nowhere, crate::specs::Room::counts_ok))]

ghost use Rattle.std.specs.Prelude.{List, ℕ, ◌≡◌, ◌≤◌, ◌<◌, ◌^◌, length};
ghost use Rattle.records.specs.Bytes.{be32, known_version};
ghost use Rattle.records.specs.Room.{node_count, vm_count, constraint_count, vms_start, constraints_start, knows_nowhere, length_ok, counts_ok};

use crate::bytes::{be32, count16};
use std::marker::Model;

// 2 and 12: whether a version is one of the two.
pub fn version_known(version: u8) -> bool
    ensures { result ≡ known_version version }
{
    version == 1 || version == 2
}

// How long a record says it is. All four bytes count.
pub fn stated_length(s: &[u8]) -> usize
    requires { 7 ≤ length s.now }
    ensures { result ≡ be32 s.now 1 }
{
    // `usize` has no From<u32>.
    be32(s, 1) as usize
}

// A cluster record that is long enough for its header.
#[derive(Drop)]
pub struct Header<'a> {
    pub(crate) bytes: &'a [u8],
}

impl<'a> Model for Header<'a> {
    ghost Value = { List ℕ };

    ghost view = { λ h. h.bytes.now };

    ghost invariant = { λ h. 11 ≤ length h.bytes.now };
}

impl Header<'_> {
    // Whether VMs of the record may be on no node.
    pub fn knows_nowhere(&self) -> bool
        ensures { result ≡ knows_nowhere self.now }
    {
        self.bytes[0] == 2
    }

    pub fn nodes(&self) -> usize
        ensures { (result ≡ node_count self.now) × (result < 2 ^ 16) }
    {
        count16(self.bytes, 5)
    }

    pub fn vms(&self) -> usize
        ensures { (result ≡ vm_count self.now) × (result < 2 ^ 16) }
    {
        count16(self.bytes, 7)
    }

    pub fn constraints(&self) -> usize
        ensures { (result ≡ constraint_count self.now) × (result < 2 ^ 16) }
    {
        count16(self.bytes, 9)
    }

    // Where the VM rows start.
    pub fn vms_start(&self) -> usize
        ensures { (result ≡ vms_start self.now) × (result < 2 ^ 20) }
    {
        11 + self.nodes() * 5
    }

    // Where the constraints start.
    pub fn constraints_start(&self) -> usize
        ensures { (result ≡ constraints_start self.now) × (result < 2 ^ 21) }
    {
        self.vms_start() + self.vms() * 7
    }

    // Whether the stated length is that of the bytes lent, and not too large.
    pub fn length_right(&self) -> bool
        ensures { result ≡ length_ok self.now }
    {
        let stated = stated_length(self.bytes);
        stated == self.bytes.len() && stated <= 65535
    }

    // Whether the three counts are in their ranges.
    pub fn counts_within(&self) -> bool
        ensures { result ≡ counts_ok self.now }
    {
        let nodes = self.nodes();
        1 <= nodes && nodes <= 64 && self.vms() <= 256 && self.constraints() <= 128
    }
}
