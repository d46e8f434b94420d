// What a stop comes to, by name, the number (docs/REFUSALS.md) and step of a refusal, and all of it as one number.
ghost use Rattle.std.specs.Prelude.{◌≡◌, ◌<◌};
ghost use Rattle.stop.specs.Stops.{stop_number, stop_step, packed_stop};
ghost use Rattle.stop.specs.Inner.{Packs};
ghost use Rattle.stop.specs.declared.outcome.StopFault.TheVariants.{Check};

use rules::{Fault, packing};

// What the checker refuses, a step that is not there or has not as many moves as there are marks, a mark other than 0 and 1, or a short buffer.
#[derive(Clone, Copy, PartialEq, Eq)]
pub enum StopFault {
    Check(Fault),
    NoStep,
    BadMark,
    Buffer,
}

// The length of the record written, or a refusal.
// An enum of its own, not a Result: what is promised gives the number and the values of each case.
#[derive(Clone, Copy, PartialEq, Eq)]
pub enum Outcome {
    Done(usize),
    Refused(StopFault),
}

impl From<Fault> for StopFault {
    ghost from_gives = { λ found fault. fault ≡ Check found };

    fn from(found: Fault) -> StopFault {
        StopFault::Check(found)
    }
}

impl StopFault {
    // Its number (docs/REFUSALS.md).
    pub fn number(self) -> u64
        ensures number { result ≡ stop_number self }
        ensures below { result < 256 }
    {
        match self {
            StopFault::Check(fault) => fault.number(),
            StopFault::NoStep => 20,
            StopFault::BadMark => 21,
            StopFault::Buffer => 22,
        }
    }

    // The step that goes with it.
    pub fn step(self) -> usize
        ensures { result ≡ stop_step self }
    {
        match self {
            StopFault::Check(fault) => fault.step(),
            StopFault::NoStep | StopFault::BadMark | StopFault::Buffer => 0,
        }
    }
}

// An outcome as one number. Each call packs its own answer; what they share is `rules::packing`.
pub fn pack(outcome: Outcome) -> u64
    requires { Packs outcome }
    ensures { result ≡ packed_stop outcome }
{
    match outcome {
        Outcome::Done(size) => size as u64,
        Outcome::Refused(fault) => packing::refused(fault.number(), fault.step()),
    }
}
