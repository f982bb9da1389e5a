// Lines and blends: the first of the three layers.

#![tactic(auto)]

mod carried;
mod cut;
mod exact;
pub mod knots;
mod links;
mod notes;
mod read;
mod refusal;
pub mod replay;
pub mod splits;
mod steps;
pub mod tables;

use axis::Triple;
pub use refusal::Refusal;

// A blend: its triples across and up. Its anchor is the two middles, its support the two outer pairs.
#[derive(Clone, Copy, Debug, PartialEq, Eq)]
pub struct Blend {
    pub across: Triple,
    pub up: Triple,
}

// The direction of a line.
#[derive(Clone, Copy, Debug, PartialEq, Eq)]
pub enum Direction {
    Upright,
    Level,
}

// A split as drawn, in document 01's own coordinates: direction 0 upright, 1 level; before run-out. The direction is a number, since a record and a caller
// may hold any: `in_range` refuses those that name none.
#[derive(Clone, Copy, Debug, Default, PartialEq, Eq)]
pub struct Split {
    pub direction: usize,
    pub position: usize,
    pub from: usize,
    pub to: usize,
}

// The lines of a map: its sides W and H, and the first `count` of the splits. An array and a count: "all unused places are zero" is part of a good record.
#[derive(Clone, Copy)]
pub struct Lines {
    pub w: usize,
    pub h: usize,
    pub count: usize,
    pub splits: [Split; Lines::MOST_SPLITS],
}

impl Lines {
    pub const LARGEST_SIDE: usize = 128;

    pub const MOST_SPLITS: usize = 60;

    // How far a split may be lengthened.
    pub const MOST_ALLOWANCE: usize = 128;
}

// Blends in table order; places from `count` on are zero. The library allocates nothing, so it is an array and a count; `blends` lends what is listed.
#[derive(Clone, Copy)]
pub struct Table {
    pub count: usize,
    pub blends: [Blend; Table::MOST_BLENDS],
}

impl Table {
    pub const MOST_BLENDS: usize = 1024;
}

// What a split draws: the line, and the table of blends after it.
#[derive(Clone, Copy)]
pub struct Drawn {
    pub line: Split,
    pub table: Table,
}
