// The verdict on a plan: the whole checking order, and its packing into one number.
ghost use Rattle.std.specs.Prelude.{◌≡◌, ◌≤◌};
ghost use Rattle.rules.specs.Verdict.{plan_verdict, verdict_of, packed};
ghost use Rattle.rules.specs.Inner.{step_of, verdict_from};

use crate::allow::fill_allow_table;
use crate::arrays::{NODES, VMS};
use crate::cost::plan_cost;
use crate::faults::{Fault, Verdict};
use crate::packing;
use crate::places::{current_places, moved};
use crate::step::step_check;
use crate::wanted::{at_home, target_check};
use records::{Cluster, Plan};

// What a plan costs, or its first fault: of each step, from a copy of the placement before it, and at last 19.
fn plan_judged(cluster: &Cluster<'_>, plan: &Plan<'_>) -> Result<u64, Fault>
    ensures { verdict_from result ≡ plan_verdict cluster.now plan.now }
{
    let mut table = [[false; NODES]; VMS];
    fill_allow_table(cluster, &mut table);
    let mut places = current_places(cluster);
    for (before, step) in plan.steps().enumerate() {
        // Not `map_err(..)?`: the closure's clause stays closed to the loop.
        if let Err(fault) = step_check(cluster, &step, places, &table) {
            return Err(Fault::Step(fault, before + 1));
        }
        places = moved(&step, places);
    }
    if at_home(cluster, &places) {
        Ok(plan_cost(cluster, plan))
    } else {
        Err(Fault::OffTarget)
    }
}

// What a plan costs a cluster at a reserve, or the first fault in checking order: of the reserve and the cluster, its target, the plan, then
// of its steps.
pub fn judged(reserve: u64, cluster: &[u8], plan: &[u8]) -> Result<u64, Fault>
    ensures { verdict_from result ≡ verdict_of reserve cluster.now plan.now }
{
    let cluster = Cluster::read(reserve, cluster)?;
    target_check(&cluster)?;
    let plan = Plan::read(plan)?;
    plan_judged(&cluster, &plan)
}

// The verdict on a plan for a cluster at a reserve.
pub fn verdict_on(reserve: u64, cluster: &[u8], plan: &[u8]) -> Verdict
    ensures { result ≡ verdict_of reserve cluster.now plan.now }
{
    judged(reserve, cluster, plan).map_or_else(Verdict::Refused, Verdict::Accepted)
}

// A verdict as one number. Each call packs its own answer; what they share is `packing`.
pub fn pack(v: Verdict) -> u64
    requires { step_of v ≤ 512 }
    ensures { result ≡ packed v }
{
    match v {
        Verdict::Accepted(cost) => cost,
        Verdict::Refused(fault) => packing::refused(fault.number(), fault.step()),
    }
}
