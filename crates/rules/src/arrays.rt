// The arrays that a call keeps, as long as the most VMs and nodes ask.
use crate::tally::Tally;

// The most VMs and the most nodes there can be.
pub const VMS: usize = 256;

pub const NODES: usize = 64;

// Where each VM is: a node, or NOWHERE.
pub type Placement = [u8; VMS];

// Where each VM goes in a step: a node, NOWHERE or NO_MOVE.
pub type Destinations = [u8; VMS];

// One past the last node there can be.
pub const NO_MOVE: u8 = 64;

// As many as the values of a place or a destination. What stands at one that is no node means nothing.
pub const PLACES: usize = 256;

pub type Sums = [Tally; PLACES];

pub type Marks = [bool; PLACES];

// Some of the nodes.
pub type Nodes = [bool; NODES];

// For each VM the nodes where it may go.
pub type AllowTable = [Nodes; VMS];
