// Where each VM may go, decided once for a call: a mark for each node of each VM, true where no ban and no fence keeps the VM away.
ghost use Rattle.std.specs.Prelude.{◌≡◌, true, replicate};
ghost use Rattle.records.specs.Inner.{Below};
ghost use Rattle.records.specs.Room.{IsSound};
ghost use Rattle.rules.specs.Inner.{row_kept, list_kept, only, all_but, applied, allow_table};

use crate::arrays::{AllowTable, NODES, Nodes, VMS};
use records::{Cluster, Constraint, Kind};

// A VM's row, without the stopped nodes.
#[tactic(auto, using(crate::proofs::Laws::Allow::row_start, crate::proofs::Laws::Allow::row_next))]
fn keep_row(row: &mut Nodes, stop: &Nodes)
    ensures { row.new ≡ row_kept row.old stop.now 64 }
{
    for d in 0..NODES {
        // The mark is read whether or not it is taken away, so that the compiler can do many at once.
        row[d] &= !stop[d];
    }
}

// The rows of the VMs, without the stopped nodes.
fn keep_rows(vms: &[u8], stop: &Nodes, table: &mut AllowTable)
    ensures { table.new ≡ list_kept table.old stop.now vms.now }
{
    for &v in vms {
        keep_row(&mut table[usize::from(v)], stop);
    }
}

// The nodes of a list. This and the next differ in a constant each: with a flag for it their names would be gone.
pub fn only(nodes: &[u8]) -> Nodes
    requires { Below 64 nodes.now }
    ensures { result ≡ only nodes.now }
{
    let mut marks = [false; NODES];
    for &d in nodes {
        marks[usize::from(d)] = true;
    }
    marks
}

// All nodes but those of a list.
pub fn all_but(nodes: &[u8]) -> Nodes
    requires { Below 64 nodes.now }
    ensures { result ≡ all_but nodes.now }
{
    let mut marks = [true; NODES];
    for &d in nodes {
        marks[usize::from(d)] = false;
    }
    marks
}

// The table, without what one constraint forbids: a ban keeps its VMs from the nodes that it names, a fence from all others.
fn apply(constraint: &Constraint<'_>, table: &mut AllowTable)
    ensures { table.new ≡ applied table.old constraint.now }
{
    match constraint.kind() {
        Kind::Ban => keep_rows(constraint.vms(), &only(constraint.nodes()), table),
        Kind::Fence => keep_rows(constraint.vms(), &all_but(constraint.nodes()), table),
        _ => {}
    }
}

// Every VM may go to every node. Alone it is laid by one memset; in the midst of `fill_allow_table` it would be a loop.
fn open(table: &mut AllowTable)
    ensures { table.new ≡ replicate 256 (replicate 64 true) }
{
    *table = [[true; NODES]; VMS];
}

// Fills a lent table, whatever was in it. What a call keeps is filled so: a table that is returned takes its length of stack twice.
pub fn fill_allow_table(cluster: &Cluster<'_>, table: &mut AllowTable)
    ensures table { table.new ≡ allow_table cluster.now }
    ensures sound { IsSound cluster.now }
{
    open(table);
    for constraint in cluster.constraints() {
        apply(&constraint, table);
    }
}

// The whole table by value: public, for a caller outside that keeps it in a place of its own.
pub fn allow_table(cluster: &Cluster<'_>) -> AllowTable
    ensures { result ≡ allow_table cluster.now }
{
    let mut table = [[false; NODES]; VMS];
    fill_allow_table(cluster, &mut table);
    table
}
