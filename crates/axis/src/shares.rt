// A triple over a unit step of its side: the gap in which the step lies, and the hat over it.
ghost use Rattle.std.specs.Prelude.{◌≡◌};
ghost use Rattle.axis.specs.Gap.{corner, gap, share};

use crate::Triple;

// The low end of the unit step at a coordinate: itself, at the far side one step back.
pub fn corner_of(side: usize, u: usize) -> usize
    ensures { result ≡ corner side u }
{
    if u == side { u.saturating_sub(1) } else { u }
}

impl Triple {
    // The gap in which the unit step from knot x lies.
    pub fn gap_at(self, x: usize) -> usize
        ensures { result ≡ gap self x }
    {
        if x < usize::from(self.m) {
            usize::from(self.m.saturating_sub(self.l))
        } else {
            usize::from(self.r.saturating_sub(self.m))
        }
    }

    // The hat at knot u over that gap.
    pub fn share_at(self, x: usize, u: usize) -> usize
        ensures { result ≡ share self x u }
    {
        if x < usize::from(self.m) {
            u.saturating_sub(usize::from(self.l))
        } else {
            usize::from(self.r).saturating_sub(u)
        }
    }
}
