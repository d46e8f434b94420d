// Dividing every step of a plan into single moves, for sites that run one move at a time.
#![tactic(auto)]

mod outcome;
mod singles;
mod splitting;

ghost use Rattle.split.specs.Promises.{Split};

// What a split comes to.
pub use outcome::{Divided, Outcome, SplitFault};
pub use splitting::{LEAST_BUFFER, outcome_of};

// Divides every step of an accepted plan into single moves, by VM number, on any number and any three byte strings: writes the record of these steps,
// in the plan's version, at the buffer's front; a refusal writes nothing. The number returned has the steps from bit 44 on and the cost below; of a
// refusal it has bit 63 set, its number from bit 16 on and its step below that. `Split` lists what is promised.
#[unsafe(no_mangle)]
pub extern "C" fn split(reserve: u64, cluster: &[u8], plan: &[u8], out: &mut [u8]) -> u64
    ensures { Split reserve cluster.now plan.now out.old out.new result }
{
    outcome::pack(outcome_of(reserve, cluster, plan, out))
}
