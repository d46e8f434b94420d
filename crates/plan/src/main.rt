// Reads a cluster record on standard input and prints what the planner answers at reserve 0: a line of counts, then a line for each move. With
// an argument, the record of these moves also goes to the file that it names.
#![tactic(auto)]

use files::Argument;
use std::array;

fn main(rt: HostRuntime) {
    let mut read = array::from_fn(|_| Argument::EMPTY);
    let arguments = files::arguments(&rt, &mut read);
    files::tell(
        &rt.stderr(),
        "plan",
        answers::run(&rt, 0, arguments.first()),
    );
}
