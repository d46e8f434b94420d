// What can be wrong with a reserve, a target, a step or a plan, by name, and the number (docs/REFUSALS.md) and step of it.
ghost use Rattle.std.specs.Prelude.{◌≡◌, ◌<◌};
ghost use Rattle.rules.specs.Verdict.{read_fault, target_number, step_number, fault_number, fault_step};
ghost use Rattle.rules.specs.declared.faults.Fault.TheVariants.{Target, Plan};

use records::{ClusterFault, PlanFault, ReadFault};

#[derive(Clone, Copy, PartialEq, Eq)]
pub enum TargetFault {
    Overfull,
    Broken,
}

#[derive(Clone, Copy, PartialEq, Eq)]
pub enum StepFault {
    Misnamed,
    Elsewhere,
    Forbidden,
    Misfit,
    Mate,
    Early,
}

// A reserve that is too large, or a fault of the cluster record, its target, the plan record, one of its steps (with its number), or its end.
#[derive(Clone, Copy, PartialEq, Eq)]
pub enum Fault {
    Reserve,
    Cluster(ClusterFault),
    Target(TargetFault),
    Plan(PlanFault),
    Step(StepFault, usize),
    OffTarget,
}

// An enum of its own, not a Result: what is promised gives the number and the values of each case.
#[derive(Clone, Copy, PartialEq, Eq)]
pub enum Verdict {
    Accepted(u64),
    Refused(Fault),
}

impl From<ReadFault> for Fault {
    ghost from_gives = { λ refusal fault. fault ≡ read_fault refusal };

    fn from(refusal: ReadFault) -> Fault {
        match refusal {
            ReadFault::Reserve => Fault::Reserve,
            ReadFault::Record(fault) => Fault::Cluster(fault),
        }
    }
}

impl From<TargetFault> for Fault {
    ghost from_gives = { λ found fault. fault ≡ Target found };

    fn from(found: TargetFault) -> Fault {
        Fault::Target(found)
    }
}

impl From<PlanFault> for Fault {
    ghost from_gives = { λ found fault. fault ≡ Plan found };

    fn from(found: PlanFault) -> Fault {
        Fault::Plan(found)
    }
}

impl TargetFault {
    pub fn number(self) -> u64
        ensures number { result ≡ target_number self }
        ensures below { result < 256 }
    {
        match self {
            TargetFault::Overfull => 8,
            TargetFault::Broken => 9,
        }
    }
}

impl StepFault {
    fn number(self) -> u64
        ensures number { result ≡ step_number self }
        ensures below { result < 256 }
    {
        match self {
            StepFault::Misnamed => 15,
            StepFault::Elsewhere => 27,
            StepFault::Forbidden => 16,
            StepFault::Misfit => 17,
            StepFault::Mate => 18,
            StepFault::Early => 33,
        }
    }
}

impl Fault {
    pub fn number(self) -> u64
        ensures number { result ≡ fault_number self }
        ensures below { result < 256 }
    {
        match self {
            Fault::Reserve => 23,
            Fault::Cluster(fault) => fault.number(),
            Fault::Target(fault) => fault.number(),
            Fault::Plan(fault) => fault.number(),
            Fault::Step(fault, _) => fault.number(),
            Fault::OffTarget => 19,
        }
    }

    // The step that goes with it, 0 if none does.
    pub fn step(self) -> usize
        ensures { result ≡ fault_step self }
    {
        match self {
            Fault::Step(_, step) => step,
            _ => 0,
        }
    }
}
