// Writes the record of a plan with every step divided into single moves, and prints `divided steps N cost C`; or prints `refused N step S` and writes
// nothing. Its arguments name the files of the cluster record and of the plan, and the file for the record; a fourth one is the reserve, in percent,
// without which it is 0.
#![tactic(auto)]

use files::{Argument, Trouble};
use split::{Divided, Outcome};
use std::array;
use std::rt::Files;

const USAGE: &str =
    "it takes a cluster file, a plan file and a file for the record, and a reserve if one is kept";

// The line of a plan; its record goes to the file first.
fn divide<'a, R: Files + Print>(
    rt: &R,
    reserve: u64,
    cluster: &[u8],
    plan: &[u8],
    file: &'a Argument,
) -> Result<(), Trouble<'a>> {
    let mut out = [0u8; split::LEAST_BUFFER];
    match split::outcome_of(reserve, cluster, plan, &mut out) {
        Outcome::Done(Divided { steps, cost }) => {
            files::save(rt, file, files::record(&out))?;
            let _ = println!(rt; "divided steps {steps} cost {cost}");
        }
        Outcome::Refused(fault) => files::refused(rt, fault.number(), fault.step()),
    }
    Ok(())
}

fn run<'a, R: Files + Print>(rt: &R, arguments: &'a [Argument]) -> Result<(), Trouble<'a>> {
    let [cluster, plan, file, rest @ ..] = arguments else {
        return Err(Trouble::WrongUse(USAGE));
    };
    let reserve = files::reserve(rest, USAGE)?;
    let mut first = [0u8; files::MOST_KEPT];
    let mut second = [0u8; files::MOST_KEPT];
    let (cluster, plan) = files::load(rt, cluster, plan, &mut first, &mut second)?;
    divide(rt, reserve, cluster, plan, file)
}

fn main(rt: HostRuntime) {
    let mut read = array::from_fn(|_| Argument::EMPTY);
    let arguments = files::arguments(&rt, &mut read);
    files::tell(&rt.stderr(), "divided", run(&rt, arguments));
}
