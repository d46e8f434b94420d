// The rules of a migration: what may happen in a step, and the verdict on a plan.
#![tactic(auto)]

mod allow;
mod arrays;
mod bound;
mod cost;
mod faults;
mod loads;
pub mod packing;
mod places;
mod spread;
mod step;
mod tally;
mod turn;
mod verdict;
mod wanted;

ghost use Rattle.rules.specs.Promises.{Checked};

// What a verdict says.
pub use faults::{Fault, StepFault, TargetFault, Verdict};
pub use verdict::{judged, verdict_on};

// What a plan costs.
pub use cost::plan_cost;

// The arrays that a call keeps.
pub use arrays::{AllowTable, Destinations, NO_MOVE, NODES, Placement, Sums, VMS};

// A node's tally, and those of all nodes.
pub use loads::{Running, loads_at_rest};
pub use tally::{Need, Tally, bears_vm, need_of};

// Placements, destinations and the target.
pub use allow::{allow_table, fill_allow_table};
pub use places::{current_places, moved, moved_at, target_places};
pub use wanted::{at_home, target_check};

// The verdict on a plan for a cluster, with so many percent of each node kept free, on any number and any two byte strings: an accepted
// plan's cost, or a refusal with bit 63 set, its number from bit 16 on and its step below that. `Checked` lists what is promised of it.
#[unsafe(no_mangle)]
pub extern "C" fn check(reserve: u64, cluster: &[u8], plan: &[u8]) -> u64
    ensures { Checked reserve cluster.now plan.now result }
{
    verdict::pack(verdict_on(reserve, cluster, plan))
}
