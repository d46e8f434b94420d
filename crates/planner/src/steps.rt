// The planner's steps, one after the other, into a lent buffer.
ghost use Rattle.std.specs.Prelude.{◌≡◌, ◌==◌, ◌+◌, ◌*◌, ◌≤◌, not, length};
ghost use Rattle.std.specs.List.{list_any};
ghost use Rattle.records.specs.Plan.{moves_bytes, written, written_width};
ghost use Rattle.rules.specs.Moments.{after};
ghost use Rattle.rules.specs.Inner.{held, no_move, Placed};
ghost use Rattle.planner.specs.Picks.{from_places, next_step};
ghost use Rattle.planner.specs.Answer.{least_buffer};
ghost use Rattle.planner.specs.Inner.{moves_in, array_for, Trailed};

use crate::board::{Board, Tables};
use crate::waits::waiting;
use rules::{Destinations, NO_MOVE, Placement};

// Whether some VM has a destination.
fn has_moves(dests: &Destinations) -> bool
    ensures { result ≡ list_any (λ to. not (to == no_move)) dests.now }
{
    dests.iter().any(|to| *to != NO_MOVE)
}

// The next step from a placement copied for it, if there is one: the direct step, or if that has no move the pivot.
fn next_step(tables: &Tables<'_>, places: Placement) -> Option<Destinations>
    requires { Placed tables.now.cluster.now places }
    ensures { result ≡ array_for (next_step tables.now.cluster.now (held tables.now.cluster.now places)) }
{
    let waits = waiting(tables.cluster, &places);
    let board = Board {
        cluster: tables.cluster,
        allow: tables.allow,
        pairs: tables.pairs,
        waits: &waits,
        places: &places,
    };
    let dests = board.direct_step();
    if has_moves(&dests) {
        return Some(dests);
    }
    board.pivot_step()
}

// Puts the moves of a step at a place, each from where its VM is, and tells how many there are.
fn put_moves(
    out: &mut [u8],
    at: usize,
    places: &Placement,
    dests: &Destinations,
    vms: usize,
) -> usize
    requires room { at + 2 + length (moves_in dests.now 0 vms) * written_width ≤ length out.old }
    requires vms { vms ≤ 256 }
    ensures count { result ≡ length (moves_in dests.now 0 vms) }
    ensures bytes { out.new ≡ written out.old (at + 2) (moves_bytes (from_places places.now (moves_in dests.now 0 vms))) }
{
    let mut count = 0;
    for v in 0..vms {
        if dests[v] != NO_MOVE {
            records::append_move(out, at, count, v as u8, places[v], dests[v]);
            count += 1;
        }
    }
    count
}

// The placement that a step leaves.
fn placement_after(mut places: Placement, dests: &Destinations, vms: usize) -> Placement
    requires { vms ≤ 256 }
    ensures { result ≡ after places (moves_in dests.now 0 vms) }
{
    for v in 0..vms {
        if dests[v] != NO_MOVE {
            places[v] = dests[v];
        }
    }
    places
}

// What was written: where it ends, how many steps and moves, and whether every VM is then on its target.
#[derive(Clone, Copy)]
pub struct Trail {
    pub end: usize,
    pub steps: usize,
    pub moves: usize,
    pub home: bool,
}

// The steps from the current placement, behind the place of the header, until there is no next one.
pub fn write_steps(tables: &Tables<'_>, out: &mut [u8]) -> Trail
    requires { least_buffer ≤ length out.old }
    ensures { Trailed tables.now.cluster.now out.old out.new result }
{
    let cluster = tables.cluster;
    let vms = cluster.vm_count();
    let mut places = rules::current_places(cluster);
    let mut end = records::FIRST_STEP;
    let mut steps: usize = 0;
    let mut moves: usize = 0;
    while let Some(dests) = next_step(tables, places) {
        let count = put_moves(out, end, &places, &dests, vms);
        end = records::finish_step(out, end, count);
        places = placement_after(places, &dests, vms);
        steps += 1;
        moves += count;
    }
    Trail {
        end,
        steps,
        moves,
        home: rules::at_home(cluster, &places),
    }
}
