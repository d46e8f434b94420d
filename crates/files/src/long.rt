// A plan file longer than any plan.
ghost use Rattle.std.specs.Prelude.{◌≡◌, ◌<◌, ◌≤◌, take};
ghost use Rattle.records.specs.Plan.{longest_plan};
ghost use Rattle.files.specs.Long.{Alike};

use crate::Buffer;

// What is lent in place of a plan file of so many bytes, more than a plan can have. It has the same fault: 12, else 13 unless the file
// states the length that it has, else 14.
#[tactic(auto, using(crate::proofs::Laws::Long::alikes))]
pub fn stand_in(plan: &Buffer, size: usize) -> [u8; 8]
    requires { longest_plan < size }
    ensures { Alike plan.now size result }
{
    let version = plan[0];
    let stated = records::stated_length(plan);
    if stated == size {
        [version, 0, 0, 0, 8, 0, 0, 0]
    } else {
        [version, 0, 0, 0, 0, 0, 0, 0]
    }
}

// The plan record in a file of so many bytes, whose first are in the buffer, or what is lent in its place.
pub fn plan_front(buffer: &mut Buffer, size: usize) -> &[u8]
    ensures short { size ≤ longest_plan → result.now ≡ take size buffer.old }
    ensures long { longest_plan < size → Alike buffer.old size result.now }
{
    if size <= records::LONGEST_PLAN {
        return &buffer[..size];
    }
    let short = stand_in(buffer, size);
    buffer[..8].copy_from_slice(&short);
    &buffer[..8]
}
