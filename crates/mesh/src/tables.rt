// Tables of blends: the empty one, and the first four.
ghost use Rattle.std.specs.Prelude.{◌≡◌, ◌≤◌, [], length};
ghost use Rattle.axis.specs.Limits.{largest_side, most_blends};
ghost use Rattle.mesh.specs.Blends.{first_four};
ghost use Rattle.mesh.specs.Sound.{table, fresh_table, blends_of};

use crate::{Blend, Lines, Table};
use axis::{Side, Triple};

impl Blend {
    // An unused place of a table.
    pub(crate) const NONE: Blend = Blend {
        across: Triple { l: 0, m: 0, r: 0 },
        up: Triple { l: 0, m: 0, r: 0 },
    };
}

// The first four blends.
pub(crate) fn first_four(w: usize, h: usize) -> [Blend; 4]
    requires { (w ≤ largest_side) × (h ≤ largest_side) }
    ensures { result ≡ first_four w h }
{
    let left = Triple::first(Side::Lower, w);
    let right = Triple::first(Side::Upper, w);
    let bottom = Triple::first(Side::Lower, h);
    let top = Triple::first(Side::Upper, h);
    [
        Blend {
            across: left,
            up: bottom,
        },
        Blend {
            across: left,
            up: top,
        },
        Blend {
            across: right,
            up: bottom,
        },
        Blend {
            across: right,
            up: top,
        },
    ]
}

impl Table {
    // The table that lists some blends.
    fn of(blends: &[Blend]) -> Table
        requires { length blends.now ≤ most_blends }
        ensures { result ≡ table blends.now }
    {
        let mut places = [Blend::NONE; Table::MOST_BLENDS];
        places[..blends.len()].copy_from_slice(blends);
        Table {
            count: blends.len(),
            blends: places,
        }
    }

    pub(crate) fn empty() -> Table
        ensures { result ≡ table [] }
    {
        Table::of(&[])
    }

    // The table of a fresh map; an empty one where a side is out of range.
    #[tactic(auto, unfolding(crate::specs::Sound::fresh_table))]
    pub fn fresh(w: usize, h: usize) -> Table
        ensures { result ≡ fresh_table w h }
    {
        if Lines::allows_side(w) && Lines::allows_side(h) {
            Table::of(&first_four(w, h))
        } else {
            Table::empty()
        }
    }

    // The blends that are listed.
    pub fn blends(&self) -> &[Blend]
        requires { self.now.count ≤ most_blends }
        ensures { result.now ≡ blends_of self.now }
    {
        &self.blends[..self.count]
    }
}
