// The moves of a plan, a step each: how many there are, and their record.
ghost use Rattle.std.specs.Prelude.{◌≡◌, ◌+◌, ◌*◌, ◌≤◌, length};
ghost use Rattle.records.specs.Plan.{move_total, most_steps, record_bytes, written};
ghost use Rattle.split.specs.Splits.{singles, all_singles, least_split};
ghost use Rattle.split.specs.Inner.{PutSteps};

use records::{Plan, Step};

// How many moves a plan has in all.
pub fn moves_in(plan: &Plan<'_>) -> usize
    ensures { result ≡ move_total plan.now }
{
    plan.steps().map(|step| step.len()).sum()
}

// Puts the moves of a step at a place of the buffer, a step each, and tells where the next one starts.
fn put_step(step: &Step<'_>, out: &mut [u8], start: usize) -> usize
    requires { start + length step.now * 5 ≤ length out.old }
    ensures { PutSteps (singles step.now) start out.old out.new result }
{
    let mut end = start;
    for step_move in step.moves() {
        end = records::append_single(out, end, step_move);
    }
    end
}

// Puts the moves of all steps behind the header's place.
fn put_steps(plan: &Plan<'_>, out: &mut [u8]) -> usize
    requires few { move_total plan.now ≤ most_steps }
    requires long { least_split ≤ length out.old }
    ensures { PutSteps (all_singles plan.now) 7 out.old out.new result }
{
    let mut end = records::FIRST_STEP;
    for step in plan.steps() {
        end = put_step(&step, out, end);
    }
    end
}

// Writes the record of a plan's moves, a step each, in a version at the buffer's front, and tells its length.
pub fn write_singles(plan: &Plan<'_>, version: u8, moves: usize, out: &mut [u8]) -> usize
    requires count { moves ≡ move_total plan.now }
    requires few { moves ≤ most_steps }
    requires long { least_split ≤ length out.old }
    ensures length { result ≡ length (record_bytes version (all_singles plan.now)) }
    ensures written { out.new ≡ written out.old 0 (record_bytes version (all_singles plan.now)) }
{
    let end = put_steps(plan, out);
    records::finish_record(out, version, end, moves);
    end
}
