// Notes for a line: the blends over its position, at the levels of their anchors. At each level there is one at most with its anchor before the line, and
// one with it after, since no anchor lies inside another's support.
ghost use Rattle.std.specs.Prelude.{◌≡◌, ◌||◌, ◌-◌, ◌≤◌, ◌<◌, length, get_or};
ghost use mathlib.Core.List.{[], ◌∷◌, Memᴰ};
ghost use Rattle.axis.specs.Range.{some};
ghost use Rattle.axis.specs.declared.Side.TheVariants.{Lower as lower, Upper as upper};
ghost use Rattle.mesh.specs.Blends.{leaves_of};
ghost use Rattle.mesh.specs.Sound.{AllProper};
ghost use Rattle.mesh.specs.Bytes.{bytes_mesh, keep_all, walk};
ghost use Rattle.mesh.specs.Carried.{WalksBy, RowsOf, note_all, notes, alike, reached, all_reached};

use crate::carried::Drawing;
use crate::cut::cut_across;
use crate::{Blend, Direction};
use axis::Side;

// By levels: the blend with its anchor before the line, and the one with it after; 0 where there is none. A note is one number, in two rows: an Option of a
// blend would be cleared and copied for each level.
#[derive(Drop)]
pub(crate) struct Notes {
    pub lows: [usize; 131],
    pub highs: [usize; 131],
}

// Whether a noted blend lies along a line of the direction from one knot to another.
fn is_reached(d: Direction, from: usize, to: usize, c: usize) -> bool
    ensures { result ≡ reached d from to c }
{
    let t = Blend::from_note(c).along(d);
    c != 0 && from <= usize::from(t.l) && usize::from(t.r) <= to
}

impl Notes {
    // Notes a blend, if the line of the direction at knot z lies in its support and not at its anchor.
    fn note(&mut self, x: Blend, d: Direction, z: usize)
        requires { (x.across.m < 131) × (x.up.m < 131) }
        ensures { (self.new.lows ≡ note_all upper d z self.old.lows (x ∷ [])) × (self.new.highs ≡ note_all lower d z self.old.highs (x ∷ [])) }
    {
        let t = x.crossed(d);
        let k = usize::from(x.along(d).m);
        if t.has_inside(Side::Upper, z) {
            self.lows[k] = x.to_note();
        } else if t.has_inside(Side::Lower, z) {
            self.highs[k] = x.to_note();
        }
    }

    // Whether some noted blend lies along the line: its anchor's level lies between.
    pub fn some_reached(&self, d: Direction, from: usize, to: usize) -> bool
        requires { to ≤ 131 }
        ensures { result ≡ some from (to - from) (λ k. reached d from to (get_or self.now.lows k 0) || reached d from to (get_or self.now.highs k 0)) }
    {
        for k in from..to {
            if is_reached(d, from, to, self.lows[k]) || is_reached(d, from, to, self.highs[k]) {
                return true;
            }
        }
        false
    }

    // Cuts those that do to the end, by all lines, and keeps what is left. Lines and places are lent apart, as `cut_across` takes them.
    pub fn cut_reached(
        &self,
        uprights: &[u8],
        levels: &[u8],
        d: Direction,
        from: usize,
        to: usize,
        places: &mut [u32],
    )
        requires { (to ≤ 131) × AllProper (all_reached d from to self.now.lows self.now.highs) ×
            ((B : Blend) → Memᴰ B (all_reached d from to self.now.lows self.now.highs) → RowsOf uprights.now levels.now places.old B) }
        ensures { places.new ≡ keep_all places.old (leaves_of (bytes_mesh uprights.now levels.now) (all_reached d from to self.now.lows self.now.highs)) }
    {
        for k in from..to {
            for c in [self.lows[k], self.highs[k]] {
                if is_reached(d, from, to, c) {
                    cut_across(uprights, levels, Blend::from_note(c), false, places);
                }
            }
        }
    }

    // Whether at level k a blend before the line and one after it reach equally far back: at an end of the line, down to where they begin; at a start, up to
    // where they end.
    pub fn alike_at(&self, d: Direction, k: usize, end: Side) -> bool
        requires { k < 131 }
        ensures { result ≡ alike end d (get_or self.now.lows k 0) (get_or self.now.highs k 0) }
    {
        let low = self.lows[k];
        let high = self.highs[k];
        let s = Blend::from_note(low).along(d);
        let t = Blend::from_note(high).along(d);
        let meet = match end {
            Side::Lower => s.r == t.r,
            Side::Upper => s.l == t.l,
        };
        low != 0 && high != 0 && meet
    }
}

impl<const N: usize> Drawing<N> {
    // Notes the kept blends for the line of the direction at knot z, in one walk.
    pub fn notes(&self, d: Direction, z: usize) -> Notes
        requires { WalksBy self.now }
        ensures { (result.lows ≡ notes upper d z (walk self.now.w self.now.h self.now.places)) ×
            (result.highs ≡ notes lower d z (walk self.now.w self.now.h self.now.places)) }
    {
        let mut notes = Notes {
            lows: [0; 131],
            highs: [0; 131],
        };
        for x in self.kept() {
            notes.note(x, d, z);
        }
        notes
    }
}
