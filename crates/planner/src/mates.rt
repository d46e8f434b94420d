// Which VMs are named by one spread, decided once for a call: a mark for each pair. And whether a VM meets a mate.
ghost use Rattle.std.specs.Prelude.{◌≡◌, false, ◌||◌, ◌<◌, eqb, get_or, length, replicate};
ghost use Rattle.records.specs.Room.{IsSound};
ghost use Rattle.rules.specs.Inner.{busy_from};
ghost use Rattle.rules.specs.Orders.{meets_mate};
ghost use Rattle.planner.specs.Inner.{pair_row, pair_rows, paired, Pairs};

use crate::board::Board;
use records::{Cluster, Constraint, Kind};
use rules::{Destinations, VMS};

// How many VMs are looked at before the others: a mate that is met among them is told at once.
const FIRST_LOOK: usize = 32;

// For each VM its mates.
pub type PairTable = [[bool; VMS]; VMS];

// Marks each VM of a list in a VM's row.
fn pair_row(vms: &[u8], row: &mut [bool; VMS])
    ensures { row.new ≡ pair_row row.old vms.now }
{
    for &w in vms {
        row[usize::from(w)] = true;
    }
}

// Marks each VM of a list with each.
fn pair_rows(vms: &[u8], table: &mut PairTable)
    ensures { table.new ≡ pair_rows table.old vms.now vms.now }
{
    for &v in vms {
        pair_row(vms, &mut table[usize::from(v)]);
    }
}

// Marks the pairs of a constraint: only a spread has any.
fn pair_part(constraint: &Constraint<'_>, table: &mut PairTable)
    ensures { table.new ≡ paired table.old constraint.now }
{
    if let Kind::Spread = constraint.kind() {
        pair_rows(constraint.vms(), table);
    }
}

// Marks all pairs, in a table that has no mark.
pub fn pair_table(cluster: &Cluster<'_>, table: &mut PairTable)
    requires { table.old ≡ replicate 256 (replicate 256 false) }
    ensures pairs { Pairs cluster.now table.new }
    ensures sound { IsSound cluster.now }
{
    for constraint in cluster.constraints() {
        pair_part(&constraint, table);
    }
}

impl Board<'_> {
    // Whether VM w counts on a node: it is there, or on its way there. Both are looked at, so that the compiler can do many VMs at once.
    fn counts(&self, dests: &Destinations, w: usize, node: u8) -> bool
        requires { w < 256 }
        ensures { result ≡ (eqb (get_or self.now.places.now w 0) node || eqb (get_or dests.now w 0) node) }
    {
        (self.places[w] == node) | (dests[w] == node)
    }

    // Whether a mate of VM v counts on node d: it is there, or on its way there with the moves of the array of destinations.
    pub fn meets(&self, dests: &Destinations, v: usize, d: usize) -> bool
        requires vm { v < length self.now.cluster.now.vms }
        requires node { d < 64 }
        ensures { result ≡ meets_mate self.now.cluster.now (busy_from self.now.places.now dests.now 0 (length self.now.cluster.now.vms)) v d }
    {
        // A node's number is below 64: nothing is cut off. No VM is a mate of its own.
        let node = d as u8;
        let mut mates = self.pairs[v];
        mates[v] = false;
        // Of the first VMs and of the others, every one is looked at, whatever was found, so that the compiler can do many at once.
        let count = self.cluster.vm_count();
        let first = count.min(FIRST_LOOK);
        let mut met = false;
        for w in 0..first {
            met |= mates[w] & self.counts(dests, w, node);
        }
        if met {
            return true;
        }
        for w in first..count {
            met |= mates[w] & self.counts(dests, w, node);
        }
        met
    }
}
