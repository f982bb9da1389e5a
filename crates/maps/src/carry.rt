// Values and marks across a split: old anchors keep theirs, each new one takes the old map's reading there and the mark 0.
ghost use Rattle.std.specs.Prelude.{◌≡◌, true, ◌≤◌, take, length};
ghost use Rattle.axis.specs.Limits.{most_blends};
ghost use Rattle.axis.specs.Range.{all};
ghost use Rattle.mesh.specs.Sound.{proper, blends_of};
ghost use Rattle.maps.specs.Inner.{carried_arrays, Grown};

use crate::opened::Opened;
use crate::values::{four_over, low_knot, reading_over};
use mesh::{Blend, Table};

// The values and marks of a table's blends.
#[derive(Clone, Copy)]
pub(crate) struct Carried {
    pub values: [u16; Table::MOST_BLENDS],
    pub marks: [u8; Table::MOST_BLENDS],
}

impl Opened {
    // The values and marks of a new table's blends; unused places are zero. Both tables are in table order, and the old anchors are among the new ones, so the
    // two are walked side by side and no anchor is searched for. The four blends over a new anchor's square are looked for from where the last four began.
    pub(crate) fn carry(&self, new: &[Blend]) -> Carried
        requires { (length new.now ≤ most_blends) × (all (proper self.now.map.lines.w self.now.map.lines.h) new.now ≡ true) ×
            Grown (blends_of self.now.table) new.now }
        ensures { result ≡ carried_arrays (blends_of self.now.table) (take self.now.table.count self.now.map.values)
            (take self.now.table.count self.now.map.marks) new.now }
    {
        let old = self.table.blends();
        let values = &self.map.values;
        let marks = &self.map.marks;
        let w = self.map.lines.w;
        let h = self.map.lines.h;
        let mut carried = [0u16; Table::MOST_BLENDS];
        let mut kept = [0u8; Table::MOST_BLENDS];
        let mut near = 0;
        let mut j = 0;
        for (i, x) in new.iter().enumerate() {
            if j < old.len() && old[j].place() == x.place() {
                carried[i] = values[j];
                kept[i] = marks[j];
                j += 1;
            } else {
                let m = usize::from(x.across.m);
                let n = usize::from(x.up.m);
                let a = low_knot(w, m - 1);
                let b = low_knot(h, n - 1);
                let four = four_over(old, near, a, b);
                carried[i] = reading_over(&four, values, a, b, m, n) as u16;
                near = four[0].place;
            }
        }
        Carried {
            values: carried,
            marks: kept,
        }
    }
}
