// Where the VMs are when a plan is stopped: behind the steps before, and of the stopped step's moves those marked as ended.
ghost use Rattle.std.specs.Prelude.{◌≡◌, ◌+◌, take};
ghost use Rattle.rules.specs.Moments.{current_of, after};
ghost use Rattle.rules.specs.Promises.{after_all};
ghost use Rattle.rules.specs.Inner.{array_of};
ghost use Rattle.stop.specs.Stops.{ended_moves, marks_ok};
ghost use Rattle.stop.specs.Inner.{marked_step, stopped_places};

use crate::outcome::StopFault;
use records::{Cluster, Plan, Step};
use rules::{Placement, current_places, moved};

// Where the VMs are behind the first n steps.
fn places_before(cluster: &Cluster<'_>, plan: &Plan<'_>, n: usize) -> Placement
    ensures { result ≡ after_all (array_of (current_of cluster.now)) (take n plan.now) }
{
    let mut places = current_places(cluster);
    for step in plan.steps().take(n) {
        // By way of `next`: over `take(n)` the borrow check does not cover a call's result laid in an array that is lent.
        let next = moved(&step, places);
        places = next;
    }
    places
}

// Where they are with the moves of a step that are marked as ended.
#[tactic(auto, unfolding(crate::specs::Stops::ended_moves, rules::specs::Moments::after))]
fn places_marked(step: &Step<'_>, marks: &[u8], mut places: Placement) -> Placement
    ensures { result ≡ after places (ended_moves step.now marks.now) }
{
    for (ended, mark) in step.moves().zip(marks) {
        if *mark == 1 {
            places[usize::from(ended.vm)] = ended.to;
        }
    }
    places
}

// 20: the step behind the first n, if the plan has it and it has as many moves as there are marks.
fn marked_step<'a>(plan: &Plan<'a>, n: usize, marks: &[u8]) -> Option<Step<'a>>
    ensures { result ≡ marked_step plan.now (n + 1) marks.now }
{
    let step = plan.steps().nth(n)?;
    (step.len() == marks.len()).then_some(step)
}

// 21: whether every mark is 0 or 1.
fn marks_sound(marks: &[u8]) -> bool
    ensures { result ≡ marks_ok marks.now }
{
    marks.iter().all(|mark| *mark <= 1)
}

// Where the VMs are when the plan is stopped in a step, or 20 or 21.
pub fn stopped_places(
    cluster: &Cluster<'_>,
    plan: &Plan<'_>,
    number: u64,
    marks: &[u8],
) -> Result<Placement, StopFault>
    ensures { result ≡ stopped_places cluster.now plan.now number marks.now }
{
    let before = number.checked_sub(1).ok_or(StopFault::NoStep)? as usize;
    let step = marked_step(plan, before, marks).ok_or(StopFault::NoStep)?;
    if !marks_sound(marks) {
        return Err(StopFault::BadMark);
    }
    let places = places_before(cluster, plan, before);
    Ok(places_marked(&step, marks, places))
}
