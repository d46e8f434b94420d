// One constraint: `p` is the part of the record from its first byte, that of its length, to its stated end.
#![tactic(auto, using(crate::proofs::Laws::Constraints::kind_within, crate::proofs::Laws::Views::formed_within))]

ghost use Rattle.std.specs.Iterator.{YieldsFirstRef, item_count};
ghost use Rattle.std.specs.Prelude.{List, ℕ, ◌≡◌, ◌≢◌, true, ◌+◌, ◌≤◌, ◌<◌, ◌⊎◌, MatchOption, length, drop};
ghost use Rattle.records.specs.Room.{Constraint as Meaning, groups_from, groups_end, list_ok, kind_of, vms_of, nodes_of, groups_of, first_of, second_of, nodes_at, nodes_end, others_at, constraint_of, filled, well_formed};
ghost use Rattle.records.specs.declared.constraints.Kind.{Kind};
ghost use Rattle.records.specs.Base.{all};
ghost use Rattle.records.specs.Inner.{Below, kind_number, nodes_ok, groups_ok, pair_ok};

use crate::bytes::count16;
use crate::groups::groups;
use crate::lists::{node_list, vm_list};
use std::marker::Model;

#[derive(Clone, Copy, PartialEq, Eq)]
pub enum Kind {
    Ban,
    Fence,
    Spread,
    Latency,
    Before,
}

impl Kind {
    // The kind that a number stands for.
    fn of(number: u8) -> Option<Kind>
        ensures { MatchOption result ((number < 1) ⊎ (5 < number)) (λ kind. kind_number kind ≡ number) }
    {
        match number {
            1 => Some(Kind::Ban),
            2 => Some(Kind::Fence),
            3 => Some(Kind::Spread),
            4 => Some(Kind::Latency),
            5 => Some(Kind::Before),
            _ => None,
        }
    }
}

// Whether a sound node list is all that is left.
fn nodes_sound(rest: &[u8], nodes: usize) -> bool
    ensures { result ≡ nodes_ok nodes rest.now }
{
    node_list(rest, nodes).is_some_and(|(_, behind)| behind.is_empty())
}

// Whether a group count and that many groups are all that is left.
fn groups_sound(rest: &[u8], nodes: usize) -> bool
    requires { nodes ≤ 64 }
    ensures { result ≡ groups_ok nodes rest.now }
{
    match rest {
        [count, rest @ ..] => {
            *count <= 64
                && groups(rest, usize::from(*count), nodes).is_some_and(|behind| behind.is_empty())
        }
        [] => false,
    }
}

// Whether two different VMs, of so many, are all that is left.
#[tactic(auto, unfolding(crate::specs::Inner::pair_ok))]
fn pair_sound(rest: &[u8], vms: usize) -> bool
    ensures { result ≡ pair_ok vms rest.now }
{
    match rest {
        [first, second] => {
            usize::from(*first) < vms && usize::from(*second) < vms && first != second
        }
        _ => false,
    }
}

// Whether the constraint has a known kind and sound lists, or two VMs, that fill it, for so many VMs and nodes.
pub fn constraint_sound(p: &[u8], vms: usize, nodes: usize) -> bool
    requires { nodes ≤ 64 }
    ensures { result ≡ well_formed vms nodes p.now }
{
    let [_, _, number, rest @ ..] = p else {
        return false;
    };
    let Some(kind) = Kind::of(*number) else {
        return false;
    };
    match kind {
        Kind::Ban | Kind::Fence => {
            vm_list(rest, vms).is_some_and(|(_, others)| nodes_sound(others, nodes))
        }
        Kind::Spread => vm_list(rest, vms).is_some_and(|(_, others)| others.is_empty()),
        Kind::Latency => {
            vm_list(rest, vms).is_some_and(|(_, others)| groups_sound(others, nodes))
        }
        Kind::Before => pair_sound(rest, vms),
    }
}

// The VM list, and what is behind it, of a constraint that has one.
fn lists(p: &[u8]) -> (&[u8], &[u8])
    requires { (filled p.now ≡ true) × (kind_of (constraint_of p.now) ≢ Kind.Before) }
    ensures { (result.0.now ≡ vms_of (constraint_of p.now)) × (result.1.now ≡ drop (others_at p.now) p.now) }
{
    p[5..].split_at(count16(p, 3))
}

// The kind of a constraint.
#[tactic(auto, using(crate::proofs::Laws::Constraints::kind_within), unfolding(crate::specs::Room::constraint_of, crate::specs::Room::kind_of))]
pub fn kind_at(p: &[u8]) -> Kind
    requires { filled p.now ≡ true }
    ensures { result ≡ kind_of (constraint_of p.now) }
{
    // Not by `Kind::of`: this is asked of every constraint at every step, and the number is known to be a kind's.
    match p[2] {
        1 => Kind::Ban,
        2 => Kind::Fence,
        3 => Kind::Spread,
        4 => Kind::Latency,
        _ => Kind::Before,
    }
}

// The VM list of a constraint; none of one that has two VMs.
pub fn bound_vms(p: &[u8]) -> &[u8]
    requires { filled p.now ≡ true }
    ensures { result.now ≡ vms_of (constraint_of p.now) }
{
    match kind_at(p) {
        Kind::Before => &[],
        _ => lists(p).0,
    }
}

// The nodes that a ban or a fence names; none of another kind.
pub fn named_nodes(p: &[u8]) -> &[u8]
    requires { filled p.now ≡ true }
    ensures { result.now ≡ nodes_of (constraint_of p.now) }
{
    match kind_at(p) {
        Kind::Ban | Kind::Fence => &lists(p).1[1..],
        _ => &[],
    }
}

// How many groups a latency constraint has.
pub fn group_count(p: &[u8]) -> usize
    requires { (filled p.now ≡ true) × (kind_of (constraint_of p.now) ≡ Kind.Latency) }
    ensures { (result ≡ length (groups_of (constraint_of p.now))) × (result < 256) }
{
    usize::from(lists(p).1[0])
}

// Where the first group starts; each next one starts where the one before it ends.
pub fn first_group(p: &[u8]) -> usize
    requires { (filled p.now ≡ true) × (kind_of (constraint_of p.now) ≡ Kind.Latency) }
    ensures { result ≡ others_at p.now + 1 }
{
    5 + lists(p).0.len() + 1
}

// The nodes of the group at a place.
#[tactic(auto, unfolding(crate::specs::Room::nodes_at))]
pub fn group_nodes(p: &[u8], at: usize) -> &[u8]
    requires { nodes_end p.now at ≤ length p.now }
    ensures { result.now ≡ nodes_at p.now at }
{
    let start = at + 1;
    let end = start + usize::from(p[at]);
    &p[start..end]
}

// The VM that comes first, of a constraint that has two.
pub fn first_vm(p: &[u8]) -> u8
    requires { (filled p.now ≡ true) × (kind_of (constraint_of p.now) ≡ Kind.Before) }
    ensures { result ≡ first_of (constraint_of p.now) }
{
    p[3]
}

// The VM that comes second.
pub fn second_vm(p: &[u8]) -> u8
    requires { (filled p.now ≡ true) × (kind_of (constraint_of p.now) ≡ Kind.Before) }
    ensures { result ≡ second_of (constraint_of p.now) }
{
    p[4]
}

// A constraint of a cluster that was read.
#[derive(Drop)]
pub struct Constraint<'a> {
    pub(crate) part: &'a [u8],
}

impl<'a> Model for Constraint<'a> {
    ghost Value = { Meaning };

    ghost view = { λ c. constraint_of c.part.now };

    ghost invariant = { λ c. well_formed 256 64 c.part.now ≡ true };
}

impl<'a> Constraint<'a> {
    pub fn kind(&self) -> Kind
        ensures { result ≡ kind_of self.now }
    {
        kind_at(self.part)
    }

    // The VMs that it binds; none if it has two VMs.
    pub fn vms(&self) -> &'a [u8]
        ensures { result.now ≡ vms_of self.now }
    {
        bound_vms(self.part)
    }

    // The nodes that a ban or a fence names; none of another kind.
    pub fn nodes(&self) -> &'a [u8]
        ensures nodes { result.now ≡ nodes_of self.now }
        ensures below { Below 64 result.now }
    {
        named_nodes(self.part)
    }

    // The groups of a latency constraint; none of another kind.
    pub fn groups(&self) -> Groups<'a>
        ensures groups { result ≡ groups_of self.now }
        ensures sound { all (list_ok 64) result ≡ true }
        ensures few { length result ≤ 64 }
    {
        match self.kind() {
            Kind::Latency => {
                let (_, others) = lists(self.part);
                let left = usize::from(others[0]);
                let rest = &others[1..];
                Groups { rest, left }
            }
            _ => Groups { rest: &[], left: 0 },
        }
    }

    // The VM that comes first, of a constraint that has two. It and `second` stay two: a line each.
    pub fn first(&self) -> u8
        requires { kind_of self.now ≡ Kind.Before }
        ensures { result ≡ first_of self.now }
    {
        first_vm(self.part)
    }

    // The VM that comes second.
    pub fn second(&self) -> u8
        requires { kind_of self.now ≡ Kind.Before }
        ensures { result ≡ second_of self.now }
    {
        second_vm(self.part)
    }
}

// The groups that are left of a constraint.
#[derive(Drop)]
pub struct Groups<'a> {
    rest: &'a [u8],
    left: usize,
}

impl<'a> Model for Groups<'a> {
    ghost Value = { List (List ℕ) };

    ghost view = { λ g. groups_from g.rest.now 0 g.left };

    ghost invariant = { λ g. groups_end g.rest.now 0 g.left ≡ length g.rest.now };
}

impl<'a> Iterator for Groups<'a> {
    type Item = &'a [u8];

    ghost next_gives = { YieldsFirstRef (λ rest. rest) };

    ghost remaining = { item_count (λ rest. rest) };

    fn next(&mut self) -> Option<&'a [u8]> {
        let (count, rest) = self.rest.split_first()?;
        let (nodes, behind) = rest.split_at(usize::from(*count));
        self.rest = behind;
        self.left -= 1;
        Some(nodes)
    }
}
