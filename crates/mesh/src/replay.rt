// The splits of lines, taken in order as exact splits.
ghost use Rattle.std.specs.Prelude.{◌≡◌, true, ◌+◌, ◌*◌, ◌≤◌};
ghost use Rattle.axis.specs.Limits.{most_splits};
ghost use Rattle.mesh.specs.Lines.{allowed_side};
ghost use Rattle.mesh.specs.Replay.{replayed};

use crate::carried::{Drawing, LARGE, SMALL, SMALL_SIDE};
use crate::{Lines, Table};

// In tables of N places, where sides and count are in their ranges.
#[inline(never)]
fn replay_in<const N: usize>(lines: &Lines) -> Option<Table>
    requires { (allowed_side lines.now.w ≡ true) × (allowed_side lines.now.h ≡ true) × (lines.now.count ≤ most_splits) ×
        ((lines.now.w + 3) * 131 ≤ N) × ((lines.now.h + 3) * 131 ≤ N) × (N ≤ LARGE) }
    ensures { result ≡ replayed lines.now }
{
    let mut drawing = Drawing::<N>::clear(lines.w, lines.h);
    drawing.load_fresh();
    for s in &lines.splits[..lines.count] {
        if drawing.step(*s, 0).is_err() {
            return None;
        }
    }
    Some(drawing.read_out())
}

#[tactic(auto, unfolding(crate::specs::Replay::replayed, crate::specs::Replay::replays))]
pub fn replay(lines: &Lines) -> Option<Table>
    ensures { result ≡ replayed lines.now }
{
    if !Lines::allows_side(lines.w)
        || !Lines::allows_side(lines.h)
        || Lines::MOST_SPLITS < lines.count
    {
        return None;
    }
    // A small map has few rows of knots, so its tables are short and soon cleared.
    if lines.w <= SMALL_SIDE && lines.h <= SMALL_SIDE {
        replay_in::<SMALL>(lines)
    } else {
        replay_in::<LARGE>(lines)
    }
}
