// Writes where the VMs are when a plan is stopped in the middle, as a cluster record to plan from again, and prints `stopped length N`; or
// prints `refused N step S` and writes nothing. Its arguments name the files of the cluster record and of the plan, the step, the marks of the
// step's moves, a digit each (1 ended, 0 stayed), and the file for the record; a sixth one is the reserve, in percent, without which it is 0.
#![tactic(auto)]

use files::{Argument, Trouble};
use std::array;
use std::rt::Files;
use stop::Outcome;

const USAGE: &str =
    "it takes a cluster file, a plan file, a step, marks and a file for the record, and a reserve if one is kept";

// The line of a stop; its record goes to the file first.
fn stop_in<'a, R: Files + Print>(
    rt: &R,
    reserve: u64,
    cluster: &[u8],
    plan: &[u8],
    step: u64,
    marks: &[u8],
    file: &'a Argument,
) -> Result<(), Trouble<'a>> {
    let mut out = [0u8; files::MOST_KEPT];
    match stop::outcome_of(reserve, cluster, plan, step, marks, &mut out) {
        Outcome::Done(length) => {
            files::save(rt, file, files::front(&out, length))?;
            let _ = println!(rt; "stopped length {length}");
        }
        Outcome::Refused(fault) => files::refused(rt, fault.number(), fault.step()),
    }
    Ok(())
}

// More marks than an argument can have are more than a step can have, and are read as none.
fn run<'a, R: Files + Print>(rt: &R, arguments: &'a [Argument]) -> Result<(), Trouble<'a>> {
    let [cluster, plan, step, marks, file, rest @ ..] = arguments else {
        return Err(Trouble::WrongUse(USAGE));
    };
    let reserve = files::reserve(rest, USAGE)?;
    let step = files::number("the step", step)?;
    let marks = files::digits("the marks", marks)?;
    let mut first = [0u8; files::MOST_KEPT];
    let mut second = [0u8; files::MOST_KEPT];
    let (cluster, plan) = files::load(rt, cluster, plan, &mut first, &mut second)?;
    stop_in(rt, reserve, cluster, plan, step, marks.text(), file)
}

fn main(rt: HostRuntime) {
    let mut read = array::from_fn(|_| Argument::EMPTY);
    let arguments = files::arguments(&rt, &mut read);
    files::tell(&rt.stderr(), "stopped", run(&rt, arguments));
}
