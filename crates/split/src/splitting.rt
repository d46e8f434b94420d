// A plan with every step divided into single moves: the checker's refusals, then 10 and 14, else the record is written.
ghost use Rattle.std.specs.Prelude.{◌≡◌, ◌≤◌, length, Ok};
ghost use Rattle.records.specs.Plan.{move_total, steps_of, most_steps, plan_check, written};
ghost use Rattle.split.specs.Splits.{all_singles, split_record, least_split, divided_into};
ghost use Rattle.split.specs.Inner.{as_outcome};
ghost use Rattle.split.specs.Promises.{Splits};

use crate::outcome::{Divided, Outcome, SplitFault};
use crate::singles::{moves_in, write_singles};
use records::{Cluster, Plan};

// The least buffer that is taken, whatever the plan's version: a step of one move has five bytes at most. No longer record comes out.
pub const LEAST_BUFFER: usize = records::FIRST_STEP + records::MOST_STEPS * 5;

// Writes the record and tells its steps and its cost, for moves that are few enough and a buffer that is long enough. The plan's bytes say its version,
// which a view forgets.
fn divided(cluster: &Cluster<'_>, plan: &[u8], moves: usize, out: &mut [u8]) -> Divided
    requires whole { plan_check plan.now ≡ Ok tt }
    requires count { moves ≡ move_total (steps_of plan.now) }
    requires few { moves ≤ most_steps }
    requires long { least_split ≤ length out.old }
    ensures divided { result ≡ divided_into cluster.now (all_singles (steps_of plan.now)) }
    ensures written { out.new ≡ written out.old 0 (split_record plan.now) }
{
    let end = write_singles(&Plan::whole(plan), records::kept_version(plan), moves, out);
    let record = Plan::whole(&out[..end]);
    Divided {
        steps: moves as u64,
        cost: rules::plan_cost(cluster, &record),
    }
}

// The steps and the cost of the record written, or the first of the refusals.
fn split_plan(
    reserve: u64,
    cluster: &[u8],
    plan: &[u8],
    out: &mut [u8],
) -> Result<Divided, SplitFault>
    ensures { Splits reserve cluster.now plan.now out.old out.new (as_outcome result) }
{
    rules::judged(reserve, cluster, plan)?;
    let moves = moves_in(&Plan::whole(plan));
    if out.len() < LEAST_BUFFER {
        return Err(SplitFault::Buffer);
    }
    if records::MOST_STEPS < moves {
        return Err(SplitFault::TooMany);
    }
    Ok(divided(&Cluster::whole(reserve, cluster), plan, moves, out))
}

// What dividing the steps of a plan comes to; the record is written if it is not refused.
pub fn outcome_of(reserve: u64, cluster: &[u8], plan: &[u8], out: &mut [u8]) -> Outcome
    ensures { Splits reserve cluster.now plan.now out.old out.new result }
{
    split_plan(reserve, cluster, plan, out).map_or_else(Outcome::Refused, Outcome::Done)
}
