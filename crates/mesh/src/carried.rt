// What is carried from split to split: a map's lines in bytes, links past columns and rows without a line, and the live blends by their anchors.
ghost use Rattle.std.specs.Prelude.{◌≡◌, true, ◌+◌, ◌*◌, ◌≤◌, ◌<◌};
ghost use mathlib.Core.List.{[], Memᴰ};
ghost use Rattle.axis.specs.Limits.{largest_side, most_splits};
ghost use Rattle.mesh.specs.Lines.{in_range, layout, layout_of, allowed_side};
ghost use Rattle.mesh.specs.Sound.{AllProper};
ghost use Rattle.mesh.specs.Replay.{HasTable};
ghost use Rattle.mesh.specs.Bytes.{Rows, keep_all};
ghost use Rattle.mesh.specs.Carried.{Clear, TallBy, LineAdded, SidesDrawn, CarriedBy};

use crate::cut::keep_blend;
use crate::links::{link, link_fresh};
use crate::steps::{draw_fresh, draw_split};
use crate::tables::first_four;
use crate::{Blend, Direction, Lines, Split, Table};

// The tables of a drawing have a row of 131 places for each knot of the largest side, or of a small one.
pub(crate) const LARGE: usize = (Lines::LARGEST_SIDE + 3) * 131;

pub(crate) const SMALL: usize = (SMALL_SIDE + 3) * 131;

pub(crate) const SMALL_SIDE: usize = 16;

// A map of `count` splits.
#[derive(Drop)]
pub(crate) struct Drawing<const N: usize> {
    pub w: usize,
    pub h: usize,
    pub uprights: [u8; N],
    pub levels: [u8; N],
    pub places: [u32; N],
    pub columns: [u8; 131],
    pub rows: [u8; 131],
    pub count: usize,
}

// Keeps blends at the places of their anchors: the places alone, as cutting does.
fn keep(places: &mut [u32], blends: &[Blend])
    requires { AllProper blends.now × ((B : Blend) → Memᴰ B blends.now → Rows (B.across.m + 1) places.old) }
    ensures { places.new ≡ keep_all places.old blends.now }
{
    for x in blends {
        keep_blend(places, *x);
    }
}

impl<const N: usize> Drawing<N> {
    // Nothing is drawn yet, and links lead past all knots.
    #[inline]
    pub fn clear(w: usize, h: usize) -> Self
        requires { ((w + 3) * 131 ≤ N) × ((h + 3) * 131 ≤ N) }
        ensures { Clear result × (result.w ≡ w) × (result.h ≡ h) }
    {
        Drawing {
            w,
            h,
            uprights: [0; N],
            levels: [0; N],
            places: [0; N],
            columns: [131; 131],
            rows: [131; 131],
            count: 0,
        }
    }

    // Draws a split's line and links its knot.
    pub fn add_line(&mut self, s: Split)
        requires { TallBy self.old × (self.old.w ≤ largest_side) × (self.old.h ≤ largest_side) × (self.old.count < most_splits) ×
            (in_range self.old.w self.old.h s ≡ true) }
        ensures { LineAdded s self.old self.new }
    {
        draw_split(s, Direction::Upright, self.h, &mut self.uprights);
        draw_split(s, Direction::Level, self.w, &mut self.levels);
        self.count += 1;
        let z = s.position + 1;
        match s.way() {
            Direction::Upright => link(&mut self.columns, z),
            Direction::Level => link(&mut self.rows, z),
        }
    }

    // Draws the sides, and links their knots.
    fn draw_sides(&mut self)
        requires { Clear self.old × (self.old.w ≤ largest_side) × (self.old.h ≤ largest_side) }
        ensures { SidesDrawn self.old self.new }
    {
        draw_fresh(self.w, self.h, &mut self.uprights);
        draw_fresh(self.h, self.w, &mut self.levels);
        link_fresh(self.w, &mut self.columns);
        link_fresh(self.h, &mut self.rows);
    }

    // Loads the fresh map of its sides.
    pub fn load_fresh(&mut self)
        requires { Clear self.old × (allowed_side self.old.w ≡ true) × (allowed_side self.old.h ≡ true) }
        ensures { CarriedBy (layout self.old.w self.old.h []) self.new }
    {
        self.draw_sides();
        keep(&mut self.places, &first_four(self.w, self.h));
    }

    // Loads lines that were replayed, whose live blends are in the table.
    pub fn load(&mut self, lines: &Lines, table: &Table)
        requires { HasTable lines.now table.now × Clear self.old × (self.old.w ≡ lines.now.w) × (self.old.h ≡ lines.now.h) }
        ensures { CarriedBy (layout_of lines.now) self.new }
    {
        self.draw_sides();
        for s in &lines.splits[..lines.count] {
            self.add_line(*s);
        }
        keep(&mut self.places, table.blends());
    }
}
