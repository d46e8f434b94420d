// Writing a plan record into a lent buffer: moves, then their step's count, or a step of one move; then the header. Nothing else in the
// buffer changes.
#![tactic(auto, using(crate::proofs::Laws::Written::header_written), unfolding(crate::specs::Bytes::bytes16, crate::specs::Bytes::bytes32, crate::specs::Plan::move_bytes, crate::specs::Plan::source_bytes))]

ghost use Rattle.std.specs.Prelude.{[], ◌∷◌, ◌≡◌, ◌+◌, ◌*◌, ◌≤◌, length};
ghost use Rattle.records.specs.Bytes.{bytes16};
ghost use Rattle.records.specs.Plan.{written_width, move_bytes, step_bytes, header_bytes, written};
ghost use Rattle.records.specs.declared.plan.Source.{Source};

use crate::plan::{Move, NAMING_VERSION, NAMING_WIDTH, Source};

// Puts bytes at a place, and tells where they end.
#[tactic(auto, using(std::proofs::lemmas::Slice::overwrites), unfolding(crate::specs::Plan::written))]
fn put(out: &mut [u8], at: usize, bytes: &[u8]) -> usize
    requires { at + length bytes.now ≤ length out.old }
    ensures end { result ≡ at + length bytes.now }
    ensures out { out.new ≡ written out.old at bytes.now }
{
    let end = at + bytes.len();
    out[at..end].copy_from_slice(bytes);
    end
}

// Puts move n of the step that starts at a place, with the source it names.
pub fn append_move(out: &mut [u8], at: usize, n: usize, vm: u8, source: u8, to: u8)
    requires { at + 2 + n * written_width + written_width ≤ length out.old }
    ensures { out.new ≡ written out.old (at + 2 + n * written_width) (move_bytes (record { vm = vm; source = Source.Named source; to = to })) }
{
    put(out, at + 2 + n * NAMING_WIDTH, &[vm, source, to]);
}

// Puts the count of the step that starts at a place, and tells where the next one starts.
pub fn finish_step(out: &mut [u8], at: usize, n: usize) -> usize
    requires { at + 2 + n * written_width ≤ length out.old }
    ensures { (result ≡ at + 2 + n * written_width) × (out.new ≡ written out.old at (bytes16 n)) }
{
    // The low two bytes: `n as u16` would owe a bound that the contract does not give.
    put(out, at, &n.to_be_bytes()[6..]) + n * NAMING_WIDTH
}

// Puts a step of one move at a place, and tells where the next step starts.
pub fn append_single(out: &mut [u8], at: usize, step_move: Move) -> usize
    requires { at + 5 ≤ length out.old }
    ensures { (result ≡ at + length (step_bytes (step_move ∷ []))) × (out.new ≡ written out.old at (step_bytes (step_move ∷ []))) }
{
    let place = put(out, at, &1u16.to_be_bytes());
    match step_move.source {
        Source::Unnamed => put(out, place, &[step_move.vm, step_move.to]),
        Source::Named(source) => put(out, place, &[step_move.vm, source, step_move.to]),
    }
}

// Puts the header of a record of a version, which ends at a place and has so many steps.
pub fn finish_record(out: &mut [u8], version: u8, end: usize, steps: usize)
    requires { 7 ≤ length out.old }
    ensures { out.new ≡ written out.old 0 (header_bytes version end steps) }
{
    let size_place = put(out, 0, &[version]);
    let count_place = put(out, size_place, &end.to_be_bytes()[4..]);
    put(out, count_place, &steps.to_be_bytes()[6..]);
}
