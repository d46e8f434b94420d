// What the steps of a plan cost: Entropy's estimate, built up step after step. A move costs at most 512 times the largest memory,
// 8,589,934,080, so a plan costs less than 2 to the 43.
ghost use Rattle.std.specs.Prelude.{◌≡◌, ◌+◌, ◌*◌, ◌≤◌, ◌<◌, ◌^◌, length};
ghost use Rattle.rules.specs.Cost.{memory_of, step_cost, cost_of};
ghost use Rattle.rules.specs.Inner.{moves_cost};

use records::{Cluster, Move, NOWHERE, Plan, Step};

// The memory of a move: its VM's, 0 of a shutdown and where there is no such VM.
#[tactic(auto, unfolding(crate::specs::Cost::memory_of, records::specs::Room::on_node, records::specs::Room::vm_of))]
fn memory_of(cluster: &Cluster<'_>, next: Move) -> u64
    ensures memory { result ≡ memory_of cluster.now next }
    ensures most { result < 2 ^ 24 }
{
    let vm = usize::from(next.vm);
    if next.to == NOWHERE || cluster.vm_count() <= vm {
        0
    } else {
        cluster.vm_memory(vm)
    }
}

// The largest memory of the moves of a step.
fn step_cost(cluster: &Cluster<'_>, step: &Step<'_>) -> u64
    ensures cost { result ≡ step_cost cluster.now step.now }
    ensures most { result < 2 ^ 24 }
{
    step.moves()
        .map(|next| memory_of(cluster, next))
        .max()
        .unwrap_or(0)
}

// The sum over the moves of a step, each its memory and the costs of the steps before.
fn step_sum(cluster: &Cluster<'_>, step: &Step<'_>, before: u64) -> u64
    requires { before + 16777215 ≤ 8589934080 }
    ensures sum { result ≡ moves_cost cluster.now before step.now }
    ensures most { result ≤ length step.now * 8589934080 }
{
    step.moves()
        .map(|next| memory_of(cluster, next) + before)
        .sum()
}

// The cost of a plan.
#[tactic(auto, using(crate::proofs::Laws::Costs::few_steps, crate::proofs::Laws::Costs::few_moves), unfolding(crate::specs::Cost::cost_of, crate::specs::Cost::cost_from, crate::specs::Inner::moves_cost, records::specs::Plan::move_total, records::specs::Base::sum_of))]
#[inline(always)]
pub fn plan_cost(cluster: &Cluster<'_>, plan: &Plan<'_>) -> u64
    ensures cost { result ≡ cost_of cluster.now plan.now }
    ensures most { result < 2 ^ 43 }
{
    // What the steps so far cost in all, and the running total.
    let mut steps_cost = 0;
    let mut total = 0;
    for step in plan.steps() {
        let most = step_cost(cluster, &step);
        total += step_sum(cluster, &step, steps_cost);
        steps_cost += most;
    }
    total
}
