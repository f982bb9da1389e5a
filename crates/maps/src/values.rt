// Readings and weights at whole points, in whole numbers that fit 64 bits.
ghost use Rattle.std.specs.Prelude.{◌≡◌, true, map, ℕ, ◌+◌, ◌*◌, ◌≤◌, ◌<◌, length, take, position};
ghost use Rattle.axis.specs.Limits.{largest_side, most_blends};
ghost use Rattle.axis.specs.Range.{only};
ghost use Rattle.axis.specs.Fraction.{plus, total};
ghost use Rattle.mesh.specs.Blends.{anchored};
ghost use Rattle.mesh.specs.Sound.{proper, over_square, blends_of};
ghost use Rattle.axis.specs.Gap.{corner};
ghost use Rattle.maps.specs.Rounding.{rounded};
ghost use Rattle.maps.specs.Values.{reading_at};
ghost use Rattle.maps.specs.Calls.{shape, weight_over};
ghost use Rattle.maps.specs.Inner.{entries_over, AllListed, weight_of_blend, Light, product, portions, fraction_of, SumOf};

use crate::opened::Opened;
use crate::{Shape, Weight, Weights};
use axis::knots::coordinate;
use axis::shares::corner_of;
use mesh::{Blend, Table};

impl From<Blend> for Shape {
    ghost from_gives = { λ b s. s ≡ shape b };

    fn from(b: Blend) -> Shape {
        Shape {
            l: coordinate(b.across.l),
            m: coordinate(b.across.m),
            r: coordinate(b.across.r),
            b: coordinate(b.up.l),
            n: coordinate(b.up.m),
            t: coordinate(b.up.r),
        }
    }
}

// The knot at the low end of the unit step at a coordinate of a side. The coordinate's own knot is an end of that step.
pub(crate) fn low_knot(side: usize, u: usize) -> usize
    requires { (1 ≤ side) × (side ≤ 128) × (u ≤ side) }
    ensures { (result ≡ corner side u + 1) × (result ≤ u + 1) × (u ≤ result) }
{
    corner_of(side, u) + 1
}

// Whether the unit square whose low corner is at knots (x, y) lies in the blend's support.
pub(crate) fn is_over(b: Blend, x: usize, y: usize) -> bool
    ensures { result ≡ over_square x y b }
{
    b.across.spans(x) && b.up.spans(y)
}

// A blend over that square with its weight at a corner of the square, at knots (u, v), over the product of the two gaps in which the square lies.
fn weight_at(b: Blend, x: usize, y: usize, u: usize, v: usize) -> Weight
    requires { (proper largest_side largest_side b ≡ true) × (x ≤ u) × (u ≤ x + 1) × (y ≤ v) × (v ≤ y + 1) }
    ensures { (result ≡ weight_of_blend x y u v b) × Light result }
{
    Weight {
        blend: Shape::from(b),
        numerator: b.across.share_at(x, u) * b.up.share_at(y, v),
        denominator: b.across.gap_at(x) * b.up.gap_at(y),
    }
}

// Whether the blend's anchor is at knots (m, n).
fn is_anchored(b: Blend, m: usize, n: usize) -> bool
    ensures { result ≡ anchored m n b }
{
    usize::from(b.across.m) == m && usize::from(b.up.m) == n
}

// The table place of the blend with the anchor at knots (m, n); none where no blend has it.
pub(crate) fn place_of(table: &Table, m: usize, n: usize) -> Option<usize>
    requires { table.now.count ≤ most_blends }
    ensures { result ≡ position (anchored m n) (blends_of table.now) }
{
    table.blends().iter().position(|b| is_anchored(*b, m, n))
}

// A sum of fractions: a whole number, and a rest over the product of the denominators.
#[derive(Clone, Copy)]
struct Sum {
    whole: usize,
    top: usize,
    bottom: usize,
}

impl Sum {
    // With a value times its weight, a fraction which is taken apart by its own denominator first. No denominator is above 129 times 129, so with at most four
    // of them each number stays below 2 to the 64.
    fn plus(self, weight: Weight, value: u16) -> Sum
        requires { SumOf 3 self × Light weight }
        ensures { (fraction_of result ≡ plus (product weight value) (fraction_of self)) × ((n : ℕ) → SumOf n self → SumOf (n + 1) result) }
    {
        let product = weight.numerator * usize::from(value);
        let den = weight.denominator;
        Sum {
            whole: self.whole + product / den,
            top: self.top * den + product % den * self.bottom,
            bottom: self.bottom * den,
        }
    }
}

// A blend of a table, and its place there.
#[derive(Clone, Copy)]
pub(crate) struct Entry {
    pub blend: Blend,
    pub place: usize,
}

// The four blends of a table over the unit square whose low corner is at knots (x, y), in table order, looked for from a place near them on, and anew from the
// start where they do not all stand behind it: the place jumps, so a `for` would be no plainer. The last four found are kept.
pub(crate) fn four_over(blends: &[Blend], near: usize, x: usize, y: usize) -> [Entry; 4]
    requires { (length blends.now ≤ most_blends) × (length (only (over_square x y) blends.now) ≡ 4) }
    ensures { result ≡ entries_over (over_square x y) blends.now 0 }
{
    let none = Entry {
        blend: blends[0],
        place: 0,
    };
    let mut four = [none; 4];
    let mut found: usize = 0;
    let mut from = near;
    let mut i = near;
    while found < 4 {
        if blends.len() <= i {
            from = 0;
            i = 0;
            found = 0;
        }
        let b = blends[i];
        if is_over(b, x, y) {
            four = [four[1], four[2], four[3], Entry { blend: b, place: i }];
            found += 1;
        }
        i += 1;
    }
    four
}

// The reading at knots (u, v), a corner of the unit square whose low corner is at knots (x, y), by the four blends over that square and the values of their
// table: the weights times the values, rounded. They are added from the last to the first, as the sum over a list is. The rest of the sum is at most four
// times its denominator, and that at most 16,641 to the fourth power, so what is divided at the end stays below 2 to the 60.
pub(crate) fn reading_over(
    four: &[Entry; 4],
    values: &[u16],
    x: usize,
    y: usize,
    u: usize,
    v: usize,
) -> usize
    requires { (length values.now ≡ most_blends) × AllListed four.now × (x ≤ u) × (u ≤ x + 1) × (y ≤ v) × (v ≤ y + 1) }
    ensures { result ≡ rounded (total (portions x y u v values.now four.now)) }
{
    let mut sum = Sum {
        whole: 0,
        top: 0,
        bottom: 1,
    };
    for k in (0..4).rev() {
        let entry = four[k];
        let weight = weight_at(entry.blend, x, y, u, v);
        sum = sum.plus(weight, values[entry.place]);
    }
    sum.whole + (2 * sum.top + sum.bottom) / (2 * sum.bottom)
}

impl Opened {
    // The reading at the whole point (u, v).
    pub(crate) fn reading_at(&self, u: usize, v: usize) -> usize
        requires { (u ≤ self.now.map.lines.w) × (v ≤ self.now.map.lines.h) }
        ensures { result ≡ reading_at (blends_of self.now.table) (take self.now.table.count self.now.map.values) u v }
    {
        let x = low_knot(self.map.lines.w, u);
        let y = low_knot(self.map.lines.h, v);
        let four = four_over(self.table.blends(), 0, x, y);
        reading_over(&four, &self.map.values, x, y, u + 1, v + 1)
    }

    // The weights of the four blends over the unit square at a whole point, in table order. A `map` over the four would need a clause on its closure, for the
    // bounds of each, and be no plainer.
    pub(crate) fn weights_at(&self, u: usize, v: usize) -> Weights
        requires { (u ≤ self.now.map.lines.w) × (v ≤ self.now.map.lines.h) }
        ensures { result.entries ≡ map (weight_over self.now.map.lines.w self.now.map.lines.h u v)
            (only (over_square (corner self.now.map.lines.w u + 1) (corner self.now.map.lines.h v + 1)) (blends_of self.now.table)) }
    {
        let x = low_knot(self.map.lines.w, u);
        let y = low_knot(self.map.lines.h, v);
        let m = u + 1;
        let n = v + 1;
        let four = four_over(self.table.blends(), 0, x, y);
        let first = weight_at(four[0].blend, x, y, m, n);
        let second = weight_at(four[1].blend, x, y, m, n);
        let third = weight_at(four[2].blend, x, y, m, n);
        let fourth = weight_at(four[3].blend, x, y, m, n);
        Weights {
            entries: [first, second, third, fourth],
        }
    }
}
