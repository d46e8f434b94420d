// Prints the verdict on a plan for a cluster: `accepted cost N` or `refused N step S`. Its arguments name the files of the two records; a third
// one is the reserve, in percent, without which it is 0.
#![tactic(auto)]

use files::{Argument, Trouble};
use rules::Verdict;
use std::array;
use std::rt::Files;

const USAGE: &str = "it takes a cluster file and a plan file, and a reserve if one is kept";

// The line of the verdict. What cannot be written is lost.
fn judge<R: Print>(rt: &R, reserve: u64, cluster: &[u8], plan: &[u8]) {
    match rules::verdict_on(reserve, cluster, plan) {
        Verdict::Accepted(cost) => {
            let _ = println!(rt; "accepted cost {cost}");
        }
        Verdict::Refused(fault) => files::refused(rt, fault.number(), fault.step()),
    }
}

fn run<'a, R: Files + Print>(rt: &R, arguments: &'a [Argument]) -> Result<(), Trouble<'a>> {
    let [cluster, plan, rest @ ..] = arguments else {
        return Err(Trouble::WrongUse(USAGE));
    };
    let reserve = files::reserve(rest, USAGE)?;
    let mut first = [0u8; files::MOST_KEPT];
    let mut second = [0u8; files::MOST_KEPT];
    let (cluster, plan) = files::load(rt, cluster, plan, &mut first, &mut second)?;
    judge(rt, reserve, cluster, plan);
    Ok(())
}

fn main(rt: HostRuntime) {
    let mut read = array::from_fn(|_| Argument::EMPTY);
    let arguments = files::arguments(&rt, &mut read);
    files::tell(&rt.stderr(), "verdict", run(&rt, arguments));
}
