// The groups of a latency constraint: node lists one behind the other, no node in two.
ghost use Rattle.std.specs.Prelude.{◌≡◌, ◌≤◌};
ghost use Rattle.records.specs.Inner.{Below, unseen_in, marked_in, unmarked, Grouped, groups_read, shown_rest};

use crate::lists::node_list;

// Whether none of the nodes is marked.
fn unseen(nodes: &[u8], seen: &[bool; 64]) -> bool
    requires { Below 64 nodes.now }
    ensures { result ≡ unseen_in seen.now nodes.now }
{
    nodes.iter().all(|node| !seen[usize::from(*node)])
}

// Marks the nodes.
fn mark(nodes: &[u8], seen: &mut [bool; 64])
    requires { Below 64 nodes.now }
    ensures { seen.new ≡ marked_in seen.old nodes.now }
{
    for node in nodes {
        seen[usize::from(*node)] = true;
    }
}

// One group: a node list of unmarked nodes, which are marked; and what is behind it.
fn group<'a>(rest: &'a [u8], limit: usize, seen: &mut [bool; 64]) -> Option<&'a [u8]>
    requires { limit ≤ 64 }
    ensures { Grouped limit seen.old rest.now (shown_rest result) seen.new }
{
    let (nodes, behind) = node_list(rest, limit)?;
    if !unseen(nodes, seen) {
        return None;
    }
    mark(nodes, seen);
    Some(behind)
}

// So many groups, and what is behind the last one.
pub fn groups(rest: &[u8], count: usize, limit: usize) -> Option<&[u8]>
    requires { limit ≤ 64 }
    ensures { shown_rest result ≡ groups_read limit rest.now unmarked count }
{
    let mut seen = [false; 64];
    let mut behind = rest;
    for _ in 0..count {
        behind = group(behind, limit, &mut seen)?;
    }
    Some(behind)
}
