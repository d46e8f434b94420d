// A plan stopped in the middle: the checker's refusals, then 20, 21 and 22, else the record is written.
ghost use Rattle.stop.specs.Inner.{as_outcome};
ghost use Rattle.stop.specs.Promises.{Stops};

use crate::outcome::{Outcome, StopFault};
use crate::places::stopped_places;
use crate::record::put_record;
use records::{Cluster, Plan};

// The length of the record written, or the first of the refusals.
fn stopped(
    reserve: u64,
    cluster: &[u8],
    plan: &[u8],
    step: u64,
    marks: &[u8],
    out: &mut [u8],
) -> Result<usize, StopFault>
    ensures { Stops reserve cluster.now plan.now step marks.now out.old out.new (as_outcome result) }
{
    rules::judged(reserve, cluster, plan)?;
    let places = stopped_places(
        &Cluster::whole(reserve, cluster),
        &Plan::whole(plan),
        step,
        marks,
    )?;
    put_record(cluster, &places, out)
}

// What stopping a plan in a step comes to; the record is written if it is not refused.
pub fn outcome_of(
    reserve: u64,
    cluster: &[u8],
    plan: &[u8],
    step: u64,
    marks: &[u8],
    out: &mut [u8],
) -> Outcome
    ensures { Stops reserve cluster.now plan.now step marks.now out.old out.new result }
{
    stopped(reserve, cluster, plan, step, marks, out).map_or_else(Outcome::Refused, Outcome::Done)
}
