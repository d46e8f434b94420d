// A line for each case: what the library says of it at reserve 0, and what it is. What cannot be written is lost.
use planner::{Answer, Made};
use rules::Verdict;

// A refusal: its number, and the step that it is of or 0.
fn refused<R: Print>(rt: &R, number: u64, step: usize, label: &str) {
    let _ = println!(rt; "refused {number} step {step} {label}");
}

// The verdict on a plan for a cluster.
pub fn verdict<R: Print>(rt: &R, cluster: &[u8], plan: &[u8], label: &str) {
    match rules::verdict_on(0, cluster, plan) {
        Verdict::Accepted(cost) => {
            let _ = println!(rt; "accepted cost {cost} {label}");
        }
        Verdict::Refused(fault) => refused(rt, fault.number(), fault.step(), label),
    }
}

// The counts of a plan or of blocked, behind that word.
fn counts<R: Print>(rt: &R, word: &str, made: Made, label: &str) {
    let Made { steps, moves, cost } = made;
    let _ = println!(rt; "{word} steps {steps} moves {moves} cost {cost} {label}");
}

// What the planner answers, with these bytes lent to it.
fn asked<R: Print>(rt: &R, cluster: &[u8], out: &mut [u8], label: &str) {
    match planner::answer_to(0, cluster, out) {
        Answer::Plan(made) => counts(rt, "plan", made, label),
        Answer::Blocked(made) => counts(rt, "blocked", made, label),
        Answer::Refused(fault) => refused(rt, fault.number(), 0, label),
    }
}

// The answer to a cluster with a buffer of so many bytes, at the front of 2,600; then how many of those stay.
pub fn answer<R: Print>(rt: &R, cluster: &[u8], size: usize, label: &str) {
    let mut out = [165u8; 2600];
    if size <= out.len() {
        asked(rt, cluster, &mut out[..size], label);
    }
    let rest = out.iter().rev().take_while(|byte| **byte == 165).count();
    let _ = println!(rt; "{rest} of 2,600 bytes stay");
}

// The verdict on a plan of no steps, and the answer.
pub fn both<R: Print>(rt: &R, cluster: &[u8], label: &str) {
    verdict(rt, cluster, b"\x01\0\0\0\x07\0\0", label);
    answer(rt, cluster, planner::LEAST_BUFFER, label);
}
