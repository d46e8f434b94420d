// What a split comes to, by name, the number (docs/REFUSALS.md) and step of a refusal, and all of it as one number.
ghost use Rattle.std.specs.Prelude.{◌≡◌, ◌<◌};
ghost use Rattle.split.specs.Splits.{split_number, split_step, packed_split};
ghost use Rattle.split.specs.Inner.{Packs};
ghost use Rattle.split.specs.declared.outcome.SplitFault.TheVariants.{Check};

use rules::{Fault, packing};

// From bit 44 on: the steps of a split plan. They may be 512, so they have ten bits.
const STEPS: u64 = 1 << 44;

// The record written: its steps, each of one move, and its cost.
#[derive(Clone, Copy, PartialEq, Eq)]
pub struct Divided {
    pub steps: u64,
    pub cost: u64,
}

// What the checker refuses, a short buffer, or more than 512 steps.
#[derive(Clone, Copy, PartialEq, Eq)]
pub enum SplitFault {
    Check(Fault),
    Buffer,
    TooMany,
}

// The record written, or a refusal.
// An enum of its own, not a Result: what is promised gives the number and the values of each case.
#[derive(Clone, Copy, PartialEq, Eq)]
pub enum Outcome {
    Done(Divided),
    Refused(SplitFault),
}

impl From<Fault> for SplitFault {
    ghost from_gives = { λ found fault. fault ≡ Check found };

    fn from(found: Fault) -> SplitFault {
        SplitFault::Check(found)
    }
}

impl SplitFault {
    // Its number (docs/REFUSALS.md).
    pub fn number(self) -> u64
        ensures number { result ≡ split_number self }
        ensures below { result < 256 }
    {
        match self {
            SplitFault::Check(fault) => fault.number(),
            SplitFault::Buffer => 10,
            SplitFault::TooMany => 14,
        }
    }

    // The step that goes with it.
    pub fn step(self) -> usize
        ensures { result ≡ split_step self }
    {
        match self {
            SplitFault::Check(fault) => fault.step(),
            SplitFault::Buffer | SplitFault::TooMany => 0,
        }
    }
}

// An outcome as one number. Each call packs its own answer; what they share is `rules::packing`.
pub fn pack(outcome: Outcome) -> u64
    requires { Packs outcome }
    ensures { result ≡ packed_split outcome }
{
    match outcome {
        Outcome::Done(divided) => divided.steps * STEPS + divided.cost,
        Outcome::Refused(fault) => packing::refused(fault.number(), fault.step()),
    }
}
