// A node's tally: the memory and CPU of the VMs that count there.
ghost use Rattle.std.specs.Prelude.{◌≡◌, ◌+◌, ◌≤◌, ◌<◌, ◌^◌, length};
ghost use Rattle.records.specs.Room.{node_of, vm_of};
ghost use Rattle.rules.specs.Moments.{within, bears};
ghost use Rattle.rules.specs.Inner.{NeedOf};

use records::Cluster;

// What a VM needs.
#[derive(Clone, Copy)]
pub struct Need {
    pub memory: u64,
    pub cpu: u64,
}

#[derive(Clone, Copy)]
pub struct Tally {
    pub memory: u64,
    pub cpu: u64,
}

impl Tally {
    // No memory and no CPU: every sum starts here.
    pub const EMPTY: Tally = Tally { memory: 0, cpu: 0 };

    // The tally with one VM more.
    pub fn with(self, vm: Need) -> Tally
        requires { (self.memory < 2 ^ 40) × (self.cpu < 2 ^ 40) × (vm.memory < 2 ^ 24) × (vm.cpu < 2 ^ 16) }
        ensures { result ≡ record { memory = self.memory + vm.memory; cpu = self.cpu + vm.cpu } }
    {
        Tally {
            memory: self.memory + vm.memory,
            cpu: self.cpu + vm.cpu,
        }
    }
}

// What VM v needs.
pub fn need_of(cluster: &Cluster<'_>, v: usize) -> Need
    requires { v < length cluster.now.vms }
    ensures { NeedOf cluster.now v result }
{
    Need {
        memory: cluster.vm_memory(v),
        cpu: cluster.vm_cpu(v),
    }
}

// Whether a tally is within what is usable of node d.
#[tactic(auto, unfolding(crate::specs::Moments::within))]
pub fn within_node(cluster: &Cluster<'_>, d: usize, tally: Tally) -> bool
    requires { d < length cluster.now.nodes }
    ensures { result ≡ within (node_of cluster.now d) tally }
{
    tally.memory <= cluster.node_memory(d) && tally.cpu <= cluster.node_cpu(d)
}

// Whether node d bears a tally for VM v, which begins: an idle one is tested for the memory alone.
#[tactic(auto, unfolding(crate::specs::Moments::bears))]
pub fn bears_vm(cluster: &Cluster<'_>, d: usize, tally: Tally, v: usize) -> bool
    requires node { d < length cluster.now.nodes }
    requires vm { v < length cluster.now.vms }
    ensures { result ≡ bears (node_of cluster.now d) tally (vm_of cluster.now v) }
{
    tally.memory <= cluster.node_memory(d)
        && (cluster.vm_cpu(v) == 0 || tally.cpu <= cluster.node_cpu(d))
}
