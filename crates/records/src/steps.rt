// A plan and its steps, read in place: a plan is a list of steps, and a step is a list of moves.
#![tactic(auto, using(crate::proofs::Laws::Steps::reading))]

ghost use Rattle.std.specs.Prelude.{◌≡◌, ◌+◌, ◌*◌, ◌≤◌, ◌<◌, Bool, true, List, length, Result, Ok};
ghost use Rattle.std.specs.Iterator.{YieldsFirst, item_count};
ghost use Rattle.records.specs.Room.{rows};
ghost use Rattle.records.specs.Plan.{Move, move_of, move_at, move_width, step_at, step_end, steps_from, steps_of, sized, shaped, plan_check, plan_read};
ghost use Rattle.records.specs.Inner.{Steps as StepsStand};

use crate::bytes::count16;
use crate::faults::PlanFault;
use crate::plan::{
    FIRST_STEP, Move, move_at, move_count, move_in, move_width, plan_check, step_end,
};
use std::marker::Model;

// A plan that is not damaged.
#[derive(Drop)]
pub struct Plan<'a> {
    bytes: &'a [u8],
}

impl<'a> Model for Plan<'a> {
    ghost Value = { List (List Move) };

    ghost view = { λ p. steps_of p.bytes.now };

    ghost invariant = { λ p. plan_check p.bytes.now ≡ Ok tt };
}

// The steps that are left of a plan. They, a step and its moves keep the whole record and a place: byte 0 says how wide a move is, and a rest would forget it.
#[derive(Drop)]
pub struct Steps<'a> {
    bytes: &'a [u8],
    at: usize,
    left: usize,
}

impl<'a> Model for Steps<'a> {
    ghost Value = { List (List Move) };

    ghost view = { λ s. steps_from s.bytes.now s.at s.left };

    ghost invariant = { λ s. StepsStand s.bytes.now s.at s.left };
}

// A step of a plan.
#[derive(Drop)]
pub struct Step<'a> {
    bytes: &'a [u8],
    at: usize,
}

impl<'a> Model for Step<'a> {
    ghost Value = { List Move };

    ghost view = { λ s. step_at s.bytes.now s.at };

    ghost invariant = { λ s. (step_end s.bytes.now s.at ≤ length s.bytes.now) × (sized (step_at s.bytes.now s.at) ≡ true) };
}

// The moves that are left of a step.
#[derive(Drop)]
pub struct Moves<'a> {
    bytes: &'a [u8],
    at: usize,
    left: usize,
}

impl<'a> Model for Moves<'a> {
    ghost Value = { List Move };

    ghost view = { λ m. rows (move_at m.bytes.now) (move_width m.bytes.now) m.at m.left };

    ghost invariant = { λ m. m.at + m.left * move_width m.bytes.now ≤ length m.bytes.now };
}

// The moves of the step at a place of a plan.
pub fn moves_at(plan: &[u8], at: usize) -> Moves<'_>
    requires { step_end plan.now at ≤ length plan.now }
    ensures { result ≡ step_at plan.now at }
{
    Moves {
        bytes: plan,
        at: at + 2,
        left: move_count(plan, at),
    }
}

impl<'a> Plan<'a> {
    pub fn read(bytes: &'a [u8]) -> Result<Plan<'a>, PlanFault>
        ensures { result ≡ plan_read bytes.now }
    {
        plan_check(bytes)?;
        Ok(Plan { bytes })
    }

    // The same of a record that is known to be undamaged: nothing is tested again.
    pub fn whole(bytes: &'a [u8]) -> Plan<'a>
        requires { plan_check bytes.now ≡ Ok tt }
        ensures { result ≡ steps_of bytes.now }
    {
        Plan { bytes }
    }

    // How many steps there are.
    pub fn len(&self) -> usize
        ensures count { result ≡ length self.now }
        ensures shaped { shaped self.now ≡ true }
    {
        if self.bytes.is_empty() {
            0
        } else {
            count16(self.bytes, 5)
        }
    }

    pub fn steps(&self) -> Steps<'a>
        ensures is { result ≡ self.now }
        ensures shaped { shaped self.now ≡ true }
    {
        Steps {
            bytes: self.bytes,
            at: FIRST_STEP,
            left: self.len(),
        }
    }
}

impl<'a> Iterator for Steps<'a> {
    type Item = Step<'a>;

    ghost next_gives = { YieldsFirst (λ s. s) };

    ghost remaining = { item_count (λ s. s) };

    fn next(&mut self) -> Option<Step<'a>> {
        if self.left == 0 {
            return None;
        }
        let step = Step {
            bytes: self.bytes,
            at: self.at,
        };
        self.at = step_end(self.bytes, self.at);
        self.left -= 1;
        Some(step)
    }
}

impl<'a> Step<'a> {
    // How many moves there are.
    pub fn len(&self) -> usize
        ensures count { result ≡ length self.now }
        ensures sized { sized self.now ≡ true }
    {
        move_count(self.bytes, self.at)
    }

    pub fn get(&self, i: usize) -> Move
        requires { i < length self.now }
        ensures { result ≡ move_of self.now i }
    {
        move_in(self.bytes, self.at, i)
    }

    pub fn moves(&self) -> Moves<'a>
        ensures is { result ≡ self.now }
        ensures sized { sized self.now ≡ true }
    {
        moves_at(self.bytes, self.at)
    }
}

impl<'a> Iterator for Moves<'a> {
    type Item = Move;

    ghost next_gives = { YieldsFirst (λ m. m) };

    ghost remaining = { item_count (λ m. m) };

    fn next(&mut self) -> Option<Move> {
        if self.left == 0 {
            return None;
        }
        let next = move_at(self.bytes, self.at);
        self.at += move_width(self.bytes);
        self.left -= 1;
        Some(next)
    }
}
