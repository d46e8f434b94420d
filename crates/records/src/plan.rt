// A plan record: whether it is whole, refusals 11 to 14, and its moves, read in place.
#![tactic(auto, using(crate::proofs::Laws::Steps::checking), unfolding(crate::specs::Plan::names_sources, crate::specs::Plan::move_width, crate::specs::Plan::source_at, crate::specs::Plan::move_at, crate::specs::Plan::kept_version))]

ghost use Rattle.std.specs.Prelude.{◌≡◌, ◌&&◌, ◌+◌, ◌*◌, ◌≤◌, ◌<◌, ◌^◌, length, eqb};
ghost use Rattle.records.specs.Bytes.{version_of};
ghost use Rattle.records.specs.Plan.{step_count, step_at, step_end, move_count, move_of, move_at, move_width, names_sources, source_at, steps_of, steps_end, shaped, kept_version, PlanRead};
ghost use Rattle.records.specs.Inner.{steps_ok};

use crate::bytes::count16;
use crate::faults::PlanFault;
use crate::header::{stated_length, version_known};

// The source that a move names. Version 1 names none. Not an Option: the format and its definitions say `Unnamed` and `Named`, and None would read
// as no move.
#[derive(Clone, Copy, PartialEq, Eq)]
pub enum Source {
    Unnamed,
    Named(u8),
}

// A move: a VM, the source that it names or none, and the place it goes to, a node or `NOWHERE`.
#[derive(Clone, Copy, PartialEq, Eq)]
pub struct Move {
    pub vm: u8,
    pub source: Source,
    pub to: u8,
}

// The version whose moves name their sources; how many bytes a move has in the other and in this one.
pub const NAMING_VERSION: u8 = 2;

pub const PLAIN_WIDTH: usize = 2;

pub const NAMING_WIDTH: usize = 3;

// Where the first step starts; the most steps of a plan, moves of a step and moves of a plan.
pub const FIRST_STEP: usize = 7;

pub const MOST_STEPS: usize = 512;

pub const MOST_STEP_MOVES: usize = 256;

pub const MOST_MOVES: usize = 1024;

// The longest undamaged record: 7 + 512 × 2 + 1,024 × 3.
pub const LONGEST_PLAN: usize = 4103;

// Whether the moves of a record name their sources.
fn names_sources(s: &[u8]) -> bool
    requires { 0 < length s.now }
    ensures { result ≡ names_sources (version_of s.now) }
{
    s[0] == NAMING_VERSION
}

// How many bytes a move of a record takes.
pub fn move_width(s: &[u8]) -> usize
    requires { 0 < length s.now }
    ensures { (result ≡ move_width s.now) × (2 ≤ result) × (result ≤ 3) }
{
    if names_sources(s) {
        NAMING_WIDTH
    } else {
        PLAIN_WIDTH
    }
}

// Whether so many steps from behind the header have counts in their ranges and fill the record. By place, as in `Steps`: what is left would
// forget the version.
fn steps_sound(s: &[u8], count: usize) -> bool
    requires { (7 ≤ length s.now) × (count ≤ 512) }
    ensures { result ≡ steps_ok s.now 7 count 0 }
{
    let width = move_width(s);
    let mut at: usize = FIRST_STEP;
    let mut moves: usize = 0;
    for _ in 0..count {
        if s.len() - at < 2 {
            return false;
        }
        let n = count16(s, at);
        if n < 1 || MOST_STEP_MOVES < n || s.len() - at - 2 < n * width {
            return false;
        }
        at += 2 + n * width;
        moves += n;
    }
    moves <= MOST_MOVES && at == s.len()
}

// 14: whether counts are in their ranges and the steps fill the record.
fn shape_sound(s: &[u8]) -> bool
    requires { 7 ≤ length s.now }
    ensures { result ≡ (shaped (steps_of s.now) && eqb (steps_end s.now 7 (step_count s.now)) (length s.now)) }
{
    let count = count16(s, 5);
    count <= MOST_STEPS && steps_sound(s, count)
}

// Whether a plan record is whole, or its first fault in checking order. 0 bytes are a plan of no steps.
pub fn plan_check(s: &[u8]) -> Result<(), PlanFault>
    ensures { PlanRead s.now result }
{
    if s.is_empty() {
        return Ok(());
    }
    if s.len() < FIRST_STEP {
        return Err(PlanFault::TooShort);
    }
    if !version_known(s[0]) {
        return Err(PlanFault::Version);
    }
    if stated_length(s) != s.len() {
        return Err(PlanFault::Length);
    }
    if !shape_sound(s) {
        return Err(PlanFault::Shape);
    }
    Ok(())
}

// The version in which an undamaged record is written anew: its own, and the one that names sources if it has 0 bytes.
pub fn kept_version(s: &[u8]) -> u8
    ensures { result ≡ kept_version s.now }
{
    s.first().copied().unwrap_or(NAMING_VERSION)
}

// The source at a place, if the moves of a record name theirs.
fn source_at(s: &[u8], at: usize) -> Source
    requires { at < length s.now }
    ensures { result ≡ source_at s.now at }
{
    if names_sources(s) {
        Source::Named(s[at])
    } else {
        Source::Unnamed
    }
}

// The move at a place.
pub fn move_at(s: &[u8], place: usize) -> Move
    requires { place + move_width s.now ≤ length s.now }
    ensures { result ≡ move_at s.now place }
{
    let width = move_width(s);
    Move {
        vm: s[place],
        source: source_at(s, place + 1),
        to: s[place + width - 1],
    }
}

// How many moves the step at a place has.
pub fn move_count(s: &[u8], at: usize) -> usize
    requires { step_end s.now at ≤ length s.now }
    ensures { (result ≡ move_count s.now at) × (result < 2 ^ 16) }
{
    count16(s, at)
}

// Where the step at a place ends, and the next one starts.
pub fn step_end(s: &[u8], at: usize) -> usize
    requires { step_end s.now at ≤ length s.now }
    ensures { result ≡ step_end s.now at }
{
    at + 2 + move_count(s, at) * move_width(s)
}

// Move i of the step at a place.
#[tactic(auto, using(crate::proofs::Laws::Steps::reading))]
pub fn move_in(s: &[u8], at: usize, i: usize) -> Move
    requires { (step_end s.now at ≤ length s.now) × (i < move_count s.now at) }
    ensures { result ≡ move_of (step_at s.now at) i }
{
    move_at(s, at + 2 + i * move_width(s))
}

// The VM of move i of the step at a place.
pub fn move_vm(s: &[u8], at: usize, i: usize) -> u8
    requires { (step_end s.now at ≤ length s.now) × (i < move_count s.now at) }
    ensures { result ≡ (move_of (step_at s.now at) i).vm }
{
    move_in(s, at, i).vm
}

// Its destination.
pub fn move_to(s: &[u8], at: usize, i: usize) -> u8
    requires { (step_end s.now at ≤ length s.now) × (i < move_count s.now at) }
    ensures { result ≡ (move_of (step_at s.now at) i).to }
{
    move_in(s, at, i).to
}

// The source that it names.
pub fn move_source(s: &[u8], at: usize, i: usize) -> Source
    requires { (step_end s.now at ≤ length s.now) × (i < move_count s.now at) }
    ensures { result ≡ (move_of (step_at s.now at) i).source }
{
    move_in(s, at, i).source
}
