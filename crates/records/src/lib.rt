// The cluster record and the plan record: whether they are whole, what they say, and writing a plan. Records are read in place and
// never copied; widths and offsets are known here, but for a step's count of two bytes and the first step's place, 7.
#![tactic(auto)]

mod bytes;
mod cluster;
mod constraints;
mod faults;
mod groups;
mod header;
mod lists;
mod plan;
mod room;
mod rows;
mod steps;
mod walk;
mod write;

// What is wrong with a record, and its number.
pub use faults::{ClusterFault, PlanFault, ReadFault};

// A cluster record.
pub use cluster::cluster_check;
pub use room::{Cluster, MOST_RESERVE, NOWHERE, current_at};

// How long a record of either kind says it is.
pub use header::stated_length;

// A constraint of it.
pub use constraints::{
    Constraint, Groups, Kind, bound_vms, first_group, first_vm, group_count, group_nodes, kind_at,
    named_nodes, second_vm,
};
pub use walk::{Constraints, part};

// A plan record.
pub use plan::{
    FIRST_STEP, LONGEST_PLAN, MOST_MOVES, MOST_STEP_MOVES, MOST_STEPS, Move, NAMING_VERSION,
    Source, kept_version, move_count, move_source, move_to, move_vm, plan_check, step_end,
};
pub use steps::{Moves, Plan, Step, Steps, moves_at};

// Writing one.
pub use write::{append_move, append_single, finish_record, finish_step};
