// Maps: a pump's lines and values, and the calls on them. The second of the three layers.

#![tactic(auto)]

mod calls;
mod carry;
pub mod opened;
mod values;
mod walk;

ghost use Rattle.std.specs.Prelude.{◌≡◌};
ghost use Rattle.maps.specs.Plain.{fresh_plain};
ghost use Rattle.maps.specs.Record.{record_of};
ghost use Rattle.maps.specs.Calls.{fresh_map};

pub use mesh::Refusal;
use mesh::{Lines, Split, Table};

// The record of a map: its lines, which are its sides and its splits in order, and in table order its values and their marks, 1 measured and 0 worked out;
// all unused places are zero. Values and marks are arrays of their own, as document 01 has the record.
#[derive(Clone, Copy)]
pub struct Map {
    pub lines: Lines,
    pub values: [u16; Table::MOST_BLENDS],
    pub marks: [u8; Table::MOST_BLENDS],
}

impl Map {
    pub const LARGEST_SIDE: usize = Lines::LARGEST_SIDE;

    pub const MOST_SPLITS: usize = Lines::MOST_SPLITS;

    pub const MOST_ALLOWANCE: usize = Lines::MOST_ALLOWANCE;

    ghost use Rattle.maps.specs.Told.{made};

    // The fresh map of two sides; refused with 1 where a side is out of range.
    pub fn fresh(w: usize, h: usize) -> Result<Map, Refusal>
        ensures { made result ≡ fresh_map w h }
    {
        if !(Lines::allows_side(w) && Lines::allows_side(h)) {
            return Err(Refusal::Side);
        }
        Ok(blank(w, h))
    }

    // The fresh 1 by 1 map, which goes with a refusal of `fresh` and of reading a file: they are handed no map.
    pub fn smallest() -> Map
        ensures { result ≡ record_of (fresh_plain 1 1) }
    {
        blank(1, 1)
    }
}

// A map without splits, all its values and marks zero.
fn blank(w: usize, h: usize) -> Map
    ensures { result ≡ record_of (fresh_plain w h) }
{
    Map {
        lines: Lines {
            w,
            h,
            count: 0,
            splits: [Split::default(); Map::MOST_SPLITS],
        },
        values: [0; Table::MOST_BLENDS],
        marks: [0; Table::MOST_BLENDS],
    }
}

// A blend in document 01's coordinates.
#[derive(Clone, Copy, Debug)]
pub struct Shape {
    pub l: i64,
    pub m: i64,
    pub r: i64,
    pub b: i64,
    pub n: i64,
    pub t: i64,
}

// The blend, value and mark at a table place.
#[derive(Clone, Copy, Debug)]
pub struct Placed {
    pub blend: Shape,
    pub value: usize,
    pub mark: usize,
}

// A blend with its weight as numerator over denominator.
#[derive(Clone, Copy, Debug)]
pub struct Weight {
    pub blend: Shape,
    pub numerator: usize,
    pub denominator: usize,
}

// The weights of the four blends over a unit square, in table order: an array in a struct, as document 01 asks.
#[derive(Clone, Copy, Debug)]
pub struct Weights {
    pub entries: [Weight; 4],
}

// How many pairs of neighbouring points lie on different sides of a wanted flow along a row or a column, and the first point of the first pair.
#[derive(Clone, Copy, Debug)]
pub struct Pairs {
    pub count: usize,
    pub first: usize,
}
