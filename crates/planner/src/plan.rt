// The planner: the refusals, then the steps, their record and the answer.
ghost use Rattle.std.specs.Prelude.{◌≡◌, ◌≤◌, length};
ghost use Rattle.records.specs.Room.{room_at};
ghost use Rattle.planner.specs.Answer.{outcome, steps_for, answer_of, least_buffer};
ghost use Rattle.planner.specs.Promises.{Answers};
ghost use Rattle.planner.specs.Inner.{answered};

use crate::answer::{Answer, BuildFault, Made};
use crate::board::Tables;
use crate::mates::pair_table;
use crate::steps::write_steps;
use records::{Cluster, Plan};
use rules::{NODES, VMS};

// The least buffer that is taken: never more than 511 steps and 511 moves are written, of two and three bytes each. No longer record comes out.
pub const LEAST_BUFFER: usize = records::FIRST_STEP + 511 * 5;

// The steps made, their record and their counts, for a buffer that is long enough.
fn planned(cluster: &Cluster<'_>, out: &mut [u8]) -> Answer
    requires { least_buffer ≤ length out.old }
    ensures { Answers cluster.now (outcome cluster.now (steps_for cluster.now)) out.old out.new result }
{
    let mut allow = [[false; NODES]; VMS];
    rules::fill_allow_table(cluster, &mut allow);
    let mut pairs = [[false; VMS]; VMS];
    pair_table(cluster, &mut pairs);
    // Lent again by `&*`: as `cluster`, the parameter is taken at a shorter lifetime, which the borrow checker does not cover.
    let tables = Tables {
        cluster: &*cluster,
        allow: &allow,
        pairs: &pairs,
    };
    let trail = write_steps(&tables, out);
    records::finish_record(out, records::NAMING_VERSION, trail.end, trail.steps);
    let plan = Plan::whole(&out[..trail.end]);
    let made = Made {
        steps: trail.steps as u64,
        moves: trail.moves as u64,
        cost: rules::plan_cost(cluster, &plan),
    };
    if trail.home {
        Answer::Plan(made)
    } else {
        Answer::Blocked(made)
    }
}

// The refusals in their turn, then the steps made.
fn built(reserve: u64, cluster: &[u8], out: &mut [u8]) -> Result<Answer, BuildFault>
    ensures { Answers (room_at reserve cluster.now) (answer_of reserve cluster.now (length out.old)) out.old out.new (answered result) }
{
    let cluster = Cluster::read(reserve, cluster)?;
    rules::target_check(&cluster)?;
    if out.len() < LEAST_BUFFER {
        return Err(BuildFault::Buffer);
    }
    Ok(planned(&cluster, out))
}

// The answer to a cluster record at a reserve, and the steps it speaks of as a record at the buffer's front.
pub fn answer_to(reserve: u64, cluster: &[u8], out: &mut [u8]) -> Answer
    ensures { Answers (room_at reserve cluster.now) (answer_of reserve cluster.now (length out.old)) out.old out.new result }
{
    built(reserve, cluster, out).unwrap_or_else(Answer::Refused)
}
