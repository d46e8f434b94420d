// The four calls for C, in one static library: each is the function of that name in `rules`, `planner`, `stop` or `split`, with its promise.
#![tactic(auto)]

ghost use Rattle.rules.specs.Promises.{Checked};
ghost use Rattle.planner.specs.Promises.{Built};
ghost use Rattle.stop.specs.Promises.{Stopped};
ghost use Rattle.split.specs.Promises.{Split};

// The verdict on a plan for a cluster, as `rules::check` gives it.
#[unsafe(no_mangle)]
pub extern "C" fn check(reserve: u64, cluster: &[u8], plan: &[u8]) -> u64
    ensures { Checked reserve cluster.now plan.now result }
{
    rules::check(reserve, cluster, plan)
}

// Plans for a cluster, as `planner::build` does.
#[unsafe(no_mangle)]
pub extern "C" fn build(reserve: u64, cluster: &[u8], out: &mut [u8]) -> u64
    ensures { Built reserve cluster.now out.old out.new result }
{
    planner::build(reserve, cluster, out)
}

// Stops a plan in a step, as `stop::stop` does.
#[unsafe(no_mangle)]
pub extern "C" fn stop(
    reserve: u64,
    cluster: &[u8],
    plan: &[u8],
    step: u64,
    marks: &[u8],
    out: &mut [u8],
) -> u64
    ensures { Stopped reserve cluster.now plan.now step marks.now out.old out.new result }
{
    stop::stop(reserve, cluster, plan, step, marks, out)
}

// Divides every step of an accepted plan into single moves, as `split::split` does.
#[unsafe(no_mangle)]
pub extern "C" fn split(reserve: u64, cluster: &[u8], plan: &[u8], out: &mut [u8]) -> u64
    ensures { Split reserve cluster.now plan.now out.old out.new result }
{
    split::split(reserve, cluster, plan, out)
}
