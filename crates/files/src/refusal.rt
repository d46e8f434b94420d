// A refusal, as every program tells it.

// The line of a refusal: its number, and the step that it is of or 0. What cannot be written is lost.
pub fn refused<R: Print>(rt: &R, number: u64, step: usize) {
    let _ = println!(rt; "refused {number} step {step}");
}
