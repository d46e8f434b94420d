// Writing the cluster record with the VMs at other places.
ghost use Rattle.std.specs.Prelude.{◌≡◌, ◌≤◌, length, Ok};
ghost use Rattle.records.specs.Room.{updated, cluster_check};
ghost use Rattle.records.specs.Plan.{written};
ghost use Rattle.stop.specs.Inner.{Puts};

use crate::outcome::StopFault;
use records::Cluster;
use rules::Placement;

// Puts a copy of bytes at the buffer's front. Byte by byte, which compiles to a call of memcpy: std's `copy_from_slice` would make the library call
// memmove besides.
fn copy_front(bytes: &[u8], out: &mut [u8])
    requires { length bytes.now ≤ length out.old }
    ensures { out.new ≡ written out.old 0 bytes.now }
{
    for i in 0..bytes.len() {
        out[i] = bytes[i];
    }
}

// Writes the record of a cluster with its VMs at these places at the buffer's front. Over bytes, as they are what is written: a view forgets them.
fn write_record(cluster: &[u8], places: &Placement, out: &mut [u8])
    requires whole { cluster_check cluster.now ≡ Ok tt }
    requires fits { length cluster.now ≤ length out.old }
    ensures { out.new ≡ written out.old 0 (updated cluster.now places.now) }
{
    copy_front(cluster, out);
    let view = Cluster::whole(0, cluster);
    for v in 0..view.vm_count() {
        view.put_place(v, places[v], out);
    }
}

// The same, and its length, or 22 if the buffer is too short for it.
#[tactic(auto, unfolding(crate::specs::Stops::buffer_of))]
pub fn put_record(cluster: &[u8], places: &Placement, out: &mut [u8]) -> Result<usize, StopFault>
    requires { cluster_check cluster.now ≡ Ok tt }
    ensures { Puts cluster.now places.now out.old out.new result }
{
    if out.len() < cluster.len() {
        return Err(StopFault::Buffer);
    }
    write_record(cluster, places, out);
    Ok(cluster.len())
}
