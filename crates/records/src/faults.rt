// What can be wrong with a record, by name, and its number (docs/REFUSALS.md).
ghost use Rattle.std.specs.Prelude.{◌≡◌, ◌<◌};
ghost use Rattle.records.specs.Room.{cluster_number};
ghost use Rattle.records.specs.declared.faults.ReadFault.TheVariants.{Record};
ghost use Rattle.records.specs.Plan.{plan_number};

#[derive(Clone, Copy, PartialEq, Eq)]
pub enum ClusterFault {
    TooShort,
    Version,
    Length,
    Counts,
    Fill,
    VmRow,
    Constraint,
}

impl ClusterFault {
    pub fn number(self) -> u64
        ensures number { result ≡ cluster_number self }
        ensures below { result < 256 }
    {
        match self {
            ClusterFault::TooShort => 1,
            ClusterFault::Version => 2,
            ClusterFault::Length => 3,
            ClusterFault::Counts => 4,
            ClusterFault::Fill => 5,
            ClusterFault::VmRow => 6,
            ClusterFault::Constraint => 7,
        }
    }
}

// Why a cluster record is not read: the reserve is past the most, or the record is damaged.
#[derive(Clone, Copy, PartialEq, Eq)]
pub enum ReadFault {
    Reserve,
    Record(ClusterFault),
}

impl From<ClusterFault> for ReadFault {
    ghost from_gives = { λ fault refusal. refusal ≡ Record fault };

    fn from(fault: ClusterFault) -> ReadFault {
        ReadFault::Record(fault)
    }
}

#[derive(Clone, Copy, PartialEq, Eq)]
pub enum PlanFault {
    TooShort,
    Version,
    Length,
    Shape,
}

impl PlanFault {
    pub fn number(self) -> u64
        ensures number { result ≡ plan_number self }
        ensures below { result < 256 }
    {
        match self {
            PlanFault::TooShort => 11,
            PlanFault::Version => 12,
            PlanFault::Length => 13,
            PlanFault::Shape => 14,
        }
    }
}
