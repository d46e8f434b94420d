// What a call knows: the cluster, its tables, who waits at a placement and where the VMs are.
ghost use Rattle.std.specs.Prelude.{◌≡◌, true, ◌<◌, length, get_or};
ghost use Rattle.records.specs.Room.{vm_of, place_ok};
ghost use Rattle.planner.specs.Inner.{Known, Tabled};

use crate::mates::PairTable;
use crate::waits::Waits;
use records::Cluster;
use rules::{AllowTable, Placement};

// What a call knows at every placement: the cluster and its tables.
#[derive(Drop)]
pub struct Tables<'a> {
    pub cluster: &'a Cluster<'a>,
    pub allow: &'a AllowTable,
    pub pairs: &'a PairTable,
    ghost known: { Tabled cluster.now allow.now pairs.now },
}

// What it knows at one: who waits and where the VMs are besides. It has the fields of `Tables` itself: with a field `tables` each contract of
// a turn would say `self.now.tables.now.cluster.now`.
#[derive(Drop)]
pub struct Board<'a> {
    pub cluster: &'a Cluster<'a>,
    pub allow: &'a AllowTable,
    pub pairs: &'a PairTable,
    pub waits: &'a Waits,
    pub places: &'a Placement,
    ghost known: { Known cluster.now allow.now pairs.now waits.now places.now },
}

impl Board<'_> {
    // Where VM v is.
    pub fn place(&self, v: usize) -> usize
        requires { v < 256 }
        ensures { result ≡ get_or self.now.places.now v 0 }
    {
        usize::from(self.places[v])
    }

    // Where it is wanted.
    pub fn target(&self, v: usize) -> usize
        requires { v < length self.now.cluster.now.vms }
        ensures target { result ≡ (vm_of self.now.cluster.now v).target }
        ensures place { place_ok true (length self.now.cluster.now.nodes) result ≡ true }
    {
        usize::from(self.cluster.target(v))
    }
}
