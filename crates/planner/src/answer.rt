// What the planner answers, and its packing into one number.
ghost use Rattle.std.specs.Prelude.{◌≡◌, ◌<◌, ◌^◌};
ghost use Rattle.planner.specs.Answer.{build_number, packed_made, packed_answer};
ghost use Rattle.planner.specs.Inner.{Packs, read_refusal};
ghost use Rattle.planner.specs.declared.answer.BuildFault.TheVariants.{Target};

use records::{ClusterFault, ReadFault};
use rules::{TargetFault, packing};

// The record written: its steps, its moves and its cost.
#[derive(Clone, Copy, PartialEq, Eq)]
pub struct Made {
    pub steps: u64,
    pub moves: u64,
    pub cost: u64,
}

// A reserve that is too large, a fault of the cluster record or of its target, or a buffer that is too short.
#[derive(Clone, Copy, PartialEq, Eq)]
pub enum BuildFault {
    Reserve,
    Cluster(ClusterFault),
    Target(TargetFault),
    Buffer,
}

impl From<ReadFault> for BuildFault {
    ghost from_gives = { λ fault refusal. refusal ≡ read_refusal fault };

    fn from(fault: ReadFault) -> BuildFault {
        match fault {
            ReadFault::Reserve => BuildFault::Reserve,
            ReadFault::Record(damage) => BuildFault::Cluster(damage),
        }
    }
}

impl From<TargetFault> for BuildFault {
    ghost from_gives = { λ fault refusal. refusal ≡ Target fault };

    fn from(fault: TargetFault) -> BuildFault {
        BuildFault::Target(fault)
    }
}

// An enum of its own, not a Result: what is promised gives the number and the values of each case.
#[derive(Clone, Copy, PartialEq, Eq)]
pub enum Answer {
    Plan(Made),
    Blocked(Made),
    Refused(BuildFault),
}

impl BuildFault {
    // Its number (docs/REFUSALS.md).
    pub fn number(self) -> u64
        ensures number { result ≡ build_number self }
        ensures below { result < 256 }
    {
        match self {
            BuildFault::Reserve => 23,
            BuildFault::Cluster(fault) => fault.number(),
            BuildFault::Target(fault) => fault.number(),
            BuildFault::Buffer => 10,
        }
    }
}

impl Made {
    fn packed(self) -> u64
        requires { (self.steps < 2 ^ 9) × (self.moves < 2 ^ 9) × (self.cost < 2 ^ 43) }
        ensures packed { result ≡ packed_made self }
        ensures below { result < 2 ^ 62 }
    {
        self.steps * packing::STEPS + self.moves * packing::MOVES + self.cost
    }
}

// An answer as one number. Each call packs its own answer; what they share is `rules::packing`.
pub fn pack(answer: Answer) -> u64
    requires { Packs answer }
    ensures { result ≡ packed_answer answer }
{
    match answer {
        Answer::Plan(made) => made.packed(),
        Answer::Blocked(made) => packing::BLOCKED + made.packed(),
        Answer::Refused(fault) => packing::refused(fault.number(), 0),
    }
}
