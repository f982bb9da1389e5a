// Reading the kept blends in table order, past columns and rows in which no line stands.
ghost use Rattle.std.specs.Prelude.{◌≡◌, ◌≤◌, length};
ghost use Rattle.std.specs.Iterator.{item_count};
ghost use Rattle.axis.specs.Limits.{most_blends};
ghost use Rattle.mesh.specs.Sound.{table};
ghost use Rattle.mesh.specs.Bytes.{walk};
ghost use Rattle.mesh.specs.Carried.{WalksBy, CanWalk, GivesKept, kept_left};

use crate::carried::Drawing;
use crate::{Blend, Table};

// The kept blends from knots (m, n) on.
#[derive(Drop)]
pub(crate) struct Kept<'a, const N: usize> {
    drawing: &'a Drawing<N>,
    m: usize,
    n: usize,
}

impl<'a, const N: usize> Iterator for Kept<'a, N> {
    type Item = Blend;

    ghost can_next = { CanWalk };

    ghost next_gives = { GivesKept };

    ghost remaining = { item_count kept_left };

    // Links lead from knot to knot, so the loop runs over no range.
    fn next(&mut self) -> Option<Blend> {
        let t = self.drawing;
        while self.m <= t.w + 1 {
            let m = self.m;
            let n = self.n;
            if n <= t.h + 1 {
                self.n = usize::from(t.rows[n]);
                let c = t.places[m * 131 + n] as usize;
                if c != 0 {
                    return Some(Blend::unpack(m, n, c));
                }
            } else {
                self.m = usize::from(t.columns[m]);
                self.n = 1;
            }
        }
        None
    }
}

impl<const N: usize> Drawing<N> {
    pub fn kept(&self) -> Kept<'_, N>
        requires { WalksBy self.now }
        ensures { CanWalk result × (kept_left result ≡ walk self.now.w self.now.h self.now.places) }
    {
        Kept {
            drawing: self,
            m: 1,
            n: 1,
        }
    }

    // The table of the kept blends.
    pub fn read_out(&self) -> Table
        requires { WalksBy self.now × (length (walk self.now.w self.now.h self.now.places) ≤ most_blends) }
        ensures { result ≡ table (walk self.now.w self.now.h self.now.places) }
    {
        let mut blends = [Blend::NONE; Table::MOST_BLENDS];
        let mut count = 0;
        for x in self.kept() {
            blends[count] = x;
            count += 1;
        }
        Table { count, blends }
    }
}
