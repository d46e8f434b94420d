// The planning program with a reserve: its first argument is the percent of each node to be kept free. It reads a cluster record on standard
// input, and prints what `plan` prints; with a second argument, the record of the moves also goes to the file that it names.
#![tactic(auto)]

use files::{Argument, Trouble};
use std::array;
use std::rt::Files;

const USAGE: &str = "it takes a reserve, and a file for the plan record if it is to be written";

fn run<'a, R: Files + Input + Print>(rt: &R, arguments: &'a [Argument]) -> Result<(), Trouble<'a>> {
    let [reserve, rest @ ..] = arguments else {
        return Err(Trouble::WrongUse(USAGE));
    };
    answers::run(rt, files::number("the reserve", reserve)?, rest.first())
}

fn main(rt: HostRuntime) {
    let mut read = array::from_fn(|_| Argument::EMPTY);
    let arguments = files::arguments(&rt, &mut read);
    files::tell(&rt.stderr(), "plan_at", run(&rt, arguments));
}
