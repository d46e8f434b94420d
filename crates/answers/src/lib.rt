// What the planning programs do: read a cluster record on standard input and print what the planner answers at a reserve, a line of counts, then
// a line for each move. The record of these moves also goes to a file, if an argument names one.
#![tactic(auto)]

mod show;

use files::{Argument, Trouble};
use planner::Answer;
use std::rt::Files;

// The whole of a planning program: the reserve, and the file for the record if there is one. Of a record that cannot be written there are no lines.
pub fn run<'a, R: Files + Input + Print>(
    rt: &R,
    reserve: u64,
    file: Option<&'a Argument>,
) -> Result<(), Trouble<'a>> {
    let mut buffer = [0u8; files::MOST_KEPT];
    let mut out = [0u8; planner::LEAST_BUFFER];
    let cluster = files::take_cluster(rt, &mut buffer)?;
    let (word, made) = match planner::answer_to(reserve, cluster, &mut out) {
        Answer::Plan(made) => ("plan", made),
        Answer::Blocked(made) => ("blocked", made),
        Answer::Refused(fault) => {
            files::refused(rt, fault.number(), 0);
            return Ok(());
        }
    };
    let record = files::record(&out);
    if let Some(file) = file {
        files::save(rt, file, record)?;
    }
    show::counts(rt, word, made);
    show::plan(rt, reserve, cluster, record);
    Ok(())
}
