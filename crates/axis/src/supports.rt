// Triples: the first two of a side, their halves, and where knots and steps lie in them.
ghost use Rattle.std.specs.Prelude.{◌≡◌, ◌≤◌};
ghost use Rattle.axis.specs.Limits.{largest_side};
ghost use Rattle.axis.specs.Triple.{first, half, spans, knot_in};

use crate::{Side, Triple};

impl Triple {
    // One of the two triples of the first blends, on a side of this length: the one at the lower end, or at the upper.
    pub fn first(side: Side, length: usize) -> Triple
        requires { length ≤ largest_side }
        ensures { result ≡ first side length }
    {
        match side {
            Side::Lower => Triple {
                l: 0,
                m: 1,
                r: (length + 1) as u8,
            },
            Side::Upper => Triple {
                l: 1,
                m: (length + 1) as u8,
                r: (length + 2) as u8,
            },
        }
    }

    // One of the two halves of a cut at knot z.
    #[tactic(auto, unfolding(crate::specs::Triple::half))]
    pub fn half(self, side: Side, z: u8) -> Triple
        ensures { result ≡ half side z self }
    {
        let low = z.min(self.m);
        let high = z.max(self.m);
        match side {
            Side::Lower => Triple {
                l: self.l,
                m: low,
                r: high,
            },
            Side::Upper => Triple {
                l: low,
                m: high,
                r: self.r,
            },
        }
    }

    // Whether the unit step from knot x lies in the support.
    pub fn spans(self, x: usize) -> bool
        ensures { result ≡ spans x self }
    {
        usize::from(self.l) <= x && x < usize::from(self.r)
    }

    // Whether knot z lies strictly inside one part: the lower, from the start to the middle, or the upper, from there to the end.
    pub fn has_inside(self, side: Side, z: usize) -> bool
        ensures { result ≡ knot_in side z self }
    {
        let (low, high) = match side {
            Side::Lower => (self.l, self.m),
            Side::Upper => (self.m, self.r),
        };
        usize::from(low) < z && z < usize::from(high)
    }
}
