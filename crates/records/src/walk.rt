// The constraints of a cluster record, one behind the other by their stated lengths.
ghost use Rattle.std.specs.Prelude.{List, ℕ, ◌≡◌, ◌+◌, ◌<◌, ◌≤◌, true, length, map, eqb, MatchOption};
ghost use Rattle.records.specs.Base.{all};
ghost use Rattle.std.specs.Iterator.{YieldsFirst, YieldsFirstRef, item_count};
ghost use Rattle.records.specs.Room.{Constraint as Meaning, constraint_of, part_end, part_at, parts_from, parts_end, well_formed};

use crate::bytes::{count16, front_count};
use crate::constraints::Constraint;
use std::marker::Model;

// What stands behind so many constraints, if each is as long as it says.
fn behind(constraints: &[u8], count: usize) -> Option<&[u8]>
    ensures { MatchOption result (length constraints.now < parts_end constraints.now 0 count) (λ rest. parts_end constraints.now 0 count + length rest.now ≡ length constraints.now) }
{
    let mut rest = constraints;
    for _ in 0..count {
        let (size, body) = front_count(rest)?;
        rest = body.get(size..)?;
    }
    Some(rest)
}

// Whether so many constraints are all that there is. It goes by itself: it tests what `Parts` has as its invariant.
pub fn constraints_fill(constraints: &[u8], count: usize) -> bool
    ensures { result ≡ eqb (parts_end constraints.now 0 count) (length constraints.now) }
{
    behind(constraints, count).is_some_and(|rest| rest.is_empty())
}

// The constraint at a place: the part of the record from its first byte to its stated end.
pub fn part(s: &[u8], at: usize) -> &[u8]
    requires { part_end s.now at ≤ length s.now }
    ensures { result.now ≡ part_at s.now at }
{
    let end = at + 2 + count16(s, at);
    &s[at..end]
}

// The constraints that are left, each the part of the record from its first byte to its stated end; they fill the rest.
#[derive(Drop)]
pub struct Parts<'a> {
    pub(crate) rest: &'a [u8],
    pub(crate) left: usize,
}

impl<'a> Model for Parts<'a> {
    ghost Value = { List (List ℕ) };

    ghost view = { λ p. parts_from p.rest.now 0 p.left };

    ghost invariant = { λ p. parts_end p.rest.now 0 p.left ≡ length p.rest.now };
}

impl<'a> Iterator for Parts<'a> {
    type Item = &'a [u8];

    ghost next_gives = { YieldsFirstRef (λ rest. rest) };

    ghost remaining = { item_count (λ rest. rest) };

    fn next(&mut self) -> Option<&'a [u8]> {
        // Not by `front_count`: this is asked of every constraint at every step, and what is left is known to be long enough.
        if self.left == 0 {
            return None;
        }
        let first = part(self.rest, 0);
        self.rest = &self.rest[first.len()..];
        self.left -= 1;
        Some(first)
    }
}

// The constraints that are left of a cluster.
#[derive(Drop)]
pub struct Constraints<'a> {
    pub(crate) parts: Parts<'a>,
}

impl<'a> Model for Constraints<'a> {
    ghost Value = { List Meaning };

    ghost view = { λ c. map constraint_of c.parts };

    ghost invariant = { λ c. all (well_formed 256 64) c.parts ≡ true };
}

impl<'a> Iterator for Constraints<'a> {
    type Item = Constraint<'a>;

    ghost next_gives = { YieldsFirst (λ rest. rest) };

    ghost remaining = { item_count (λ rest. rest) };

    fn next(&mut self) -> Option<Constraint<'a>> {
        let part = self.parts.next()?;
        Some(Constraint { part })
    }
}
