// The planner: a plan that brings every VM to its target, or how far it gets.
#![tactic(auto)]

mod answer;
mod board;
mod direct;
mod join;
mod mates;
mod pivot;
mod plan;
mod steps;
mod waits;

ghost use Rattle.planner.specs.Promises.{Built};

// What the planner answers.
pub use answer::{Answer, BuildFault, Made};
pub use plan::{LEAST_BUFFER, answer_to};

// Plans for a cluster, with so many percent of each node kept free, on any number and any two byte strings: writes the steps made, of a plan
// or of blocked, as a record at the buffer's front; a refusal writes nothing. The number returned has steps, moves and cost from bits 53, 44
// and 0 on, bit 62 set if blocked; of a refusal bit 63, and its number from bit 16 on. `Built` lists what is promised.
#[unsafe(no_mangle)]
pub extern "C" fn build(reserve: u64, cluster: &[u8], out: &mut [u8]) -> u64
    ensures { Built reserve cluster.now out.old out.new result }
{
    answer::pack(answer_to(reserve, cluster, out))
}
