// A walk along a row or up a column, from reading to reading. The four blends over one unit square mostly lie over the next one too, so the table is
// searched only where they do not, and from the first of them on.
ghost use Rattle.std.specs.Prelude.{◌≡◌, cond, ℕ, ◌≤◌, ◌<◌, ltb, take};
ghost use Rattle.std.specs.List.{list_all};
ghost use Rattle.axis.specs.Limits.{largest_side};
ghost use Rattle.axis.specs.Range.{differ, turns_from};
ghost use Rattle.mesh.specs.Sound.{over_square, blends_of};
ghost use Rattle.maps.specs.declared.values.Entry.{Entry};
ghost use Rattle.maps.specs.Values.{reading_at};
ghost use Rattle.maps.specs.Pairs.{counted_pairs};
ghost use Rattle.maps.specs.Inner.{is_level, with_pair, counted};

use crate::Pairs;
use crate::opened::Opened;
use crate::values::{Entry, four_over, is_over, low_knot, reading_over};
use mesh::Direction;

// Of two numbers, the one for a row, which runs level, and the one for a column, which runs upright.
pub(crate) fn along(direction: Direction, row: usize, column: usize) -> usize
    ensures { result ≡ cond (is_level direction) row column }
{
    match direction {
        Direction::Level => row,
        Direction::Upright => column,
    }
}

// Whether four blends all lie over the unit square whose low corner is at knots (x, y).
fn all_over(four: &[Entry; 4], x: usize, y: usize) -> bool
    ensures { result ≡ list_all (λ (e : Entry). over_square x y e.blend) four.now }
{
    four.iter().all(|e| is_over(e.blend, x, y))
}

// The pairs with one more, from k to the next point, where one of the two lies below the wanted flow and the other does not.
fn noted(pairs: Option<Pairs>, k: usize, here: bool, there: bool) -> Option<Pairs>
    requires { (counted pairs).count < largest_side × ((counted pairs).number ≡ 0 → 0 < (counted pairs).count) }
    ensures noted { counted result ≡ cond (differ here there) (with_pair (counted pairs) k) (counted pairs) }
    ensures some { (counted result).number ≡ 0 → 0 < (counted result).count }
{
    if here == there {
        return pairs;
    }
    Some(match pairs {
        None => Pairs { count: 1, first: k },
        Some(p) => Pairs {
            count: p.count + 1,
            first: p.first,
        },
    })
}

impl Opened {
    // The pairs along the row at speed `at`, or up the column at level `at`; none where there is no pair.
    pub(crate) fn pairs_along(
        &self,
        direction: Direction,
        at: usize,
        wanted: usize,
    ) -> Option<Pairs>
        requires { at ≤ cond (is_level direction) self.now.map.lines.h self.now.map.lines.w }
        ensures { counted result ≡ counted_pairs (turns_from 0 (cond (is_level direction) self.now.map.lines.w self.now.map.lines.h)
            (λ (k : ℕ). ltb (reading_at (blends_of self.now.table) (take self.now.table.count self.now.map.values)
            (cond (is_level direction) k at) (cond (is_level direction) at k)) wanted)) }
    {
        let blends = self.table.blends();
        let w = self.map.lines.w;
        let h = self.map.lines.h;
        let side = along(direction, w, h);
        let mut four = four_over(blends, 0, 1, 1);
        let mut last = false;
        let mut pairs = None;
        for k in 0..=side {
            let u = along(direction, k, at);
            let v = along(direction, at, k);
            let x = low_knot(w, u);
            let y = low_knot(h, v);
            if !all_over(&four, x, y) {
                four = four_over(blends, four[0].place, x, y);
            }
            let litres = reading_over(&four, &self.map.values, x, y, u + 1, v + 1);
            let here = litres < wanted;
            // The first point makes no pair.
            if 0 < k {
                pairs = noted(pairs, k - 1, last, here);
            }
            last = here;
        }
        pairs
    }
}
