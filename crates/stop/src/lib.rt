// Stopping a plan in the middle: the cluster record with the VMs where they then are, to plan from again.
#![tactic(auto)]

mod outcome;
mod places;
mod record;
mod stopping;

ghost use Rattle.stop.specs.Promises.{Stopped};

// What a stop comes to.
pub use outcome::{Outcome, StopFault};
pub use stopping::outcome_of;

// Stops a plan in a step, with a mark for each of the step's moves, on any two numbers and any four byte strings: writes the cluster record with
// the VMs where they then are at the buffer's front; a refusal writes nothing. The number returned is the length written; of a refusal it has bit
// 63 set, its number from bit 16 on and its step below that. `Stopped` lists what is promised.
#[unsafe(no_mangle)]
pub extern "C" fn stop(
    reserve: u64,
    cluster: &[u8],
    plan: &[u8],
    step: u64,
    marks: &[u8],
    out: &mut [u8],
) -> u64
    ensures { Stopped reserve cluster.now plan.now step marks.now out.old out.new result }
{
    outcome::pack(outcome_of(reserve, cluster, plan, step, marks, out))
}
