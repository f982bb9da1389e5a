// One axis: triples of knots, their halves and hats. Nothing here knows how many axes there are.
//
// A knot is a line's position, kept shifted by one: knot k is document 01's coordinate k - 1, so that its -1 is 0.

#![tactic(auto)]

pub mod knots;
pub mod shares;
pub mod supports;

// An end of a triple, or of a line: the one where the knots begin, and the one where they stop.
#[derive(Clone, Copy, Debug, PartialEq, Eq)]
pub enum Side {
    Lower,
    Upper,
}

// One axis of a blend: its three knots, rising.
#[derive(Clone, Copy, Debug, PartialEq, Eq)]
pub struct Triple {
    pub l: u8,
    pub m: u8,
    pub r: u8,
}
