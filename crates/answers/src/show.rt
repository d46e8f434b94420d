// The lines of an answer. What is read here is looked at first, so that no line rests on what the planner wrote. What cannot be written is lost.
use planner::Made;
use records::{Cluster, Move, Plan, Step};
use rules::Placement;

// The counts of a plan or of blocked, behind that word.
pub fn counts<R: Print>(rt: &R, word: &str, made: Made) {
    let Made { steps, moves, cost } = made;
    let _ = println!(rt; "{word} steps {steps} moves {moves} cost {cost}");
}

// The lines of a step, which begins with the VMs at these places; they are then where they are behind it.
fn moves<R: Print>(rt: &R, number: usize, step: &Step<'_>, places: &mut Placement) {
    let starts = *places;
    for Move { vm, to, .. } in step.moves() {
        let from = starts[usize::from(vm)];
        let _ = println!(rt; "{number} {vm} {from} {to}");
        places[usize::from(vm)] = to;
    }
}

// The lines of all steps.
fn steps<R: Print>(rt: &R, cluster: &Cluster<'_>, plan: &Plan<'_>) {
    let mut places = rules::current_places(cluster);
    for (number, step) in (1..=plan.len()).zip(plan.steps()) {
        moves(rt, number, &step, &mut places);
    }
}

// The lines of all steps, if both records are whole.
pub fn plan<R: Print>(rt: &R, reserve: u64, cluster: &[u8], record: &[u8]) {
    if let (Ok(cluster), Ok(plan)) = (Cluster::read(reserve, cluster), Plan::read(record)) {
        steps(rt, &cluster, &plan);
    }
}
