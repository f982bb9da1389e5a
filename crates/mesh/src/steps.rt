// A mesh in bytes: a byte for each unit step of the lines of one direction.
ghost use Rattle.std.specs.Prelude.{◌≡◌, true, ◌||◌, ℕ, ◌+◌, ◌≤◌, ◌<◌, length};
ghost use Rattle.axis.specs.Limits.{largest_side};
ghost use Rattle.axis.specs.Range.{every};
ghost use Rattle.mesh.specs.Lines.{number, other, side, direction, start, end, draws, allowed_side, fits, in_range, fresh_mesh};
ghost use Rattle.mesh.specs.declared.Direction.{Direction};
ghost use Rattle.mesh.specs.Bytes.{Rows, Zeros, step_on, Drawn};

use crate::{Direction, Lines, Split};

// Whether the line at knot z is on at each of the n steps from knot b on. An `all` over the slice was tried, and replays took a tenth longer.
pub(crate) fn covers(steps: &[u8], z: u8, b: u8, n: u8) -> bool
    requires { Rows (z + 1) steps.now × (z < 131) × (b + n ≤ 131) }
    ensures { result ≡ every b n (step_on steps.now z) }
{
    let row = usize::from(z) * 131;
    for k in b..b + n {
        if steps[row + usize::from(k)] == 0 {
            return false;
        }
    }
    true
}

// Switches on the steps from knot `from` to knot `to` of the line at knot z.
pub(crate) fn draw(steps: &mut [u8], z: usize, from: usize, to: usize)
    requires { Rows (z + 1) steps.old × (z < 131) × (from ≤ to) × (to ≤ 131) }
    ensures { Drawn steps.old steps.new z from to }
{
    let row = z * 131;
    steps[row + from..row + to].fill(1);
}

impl Lines {
    // Whether a side keeps to its range.
    pub fn allows_side(side: usize) -> bool
        ensures { result ≡ allowed_side side }
    {
        1 <= side && side <= Lines::LARGEST_SIDE
    }
}

impl Direction {
    // The direction of the lines that cross those of this one.
    pub(crate) fn other(self) -> Direction
        ensures { result ≡ other self }
    {
        match self {
            Direction::Upright => Direction::Level,
            Direction::Level => Direction::Upright,
        }
    }

    // Its number in a split.
    fn number(self) -> usize
        ensures { result ≡ number self }
    {
        self as usize
    }
}

impl Split {
    // Whether it keeps to the side that it crosses and the side that it runs along.
    fn fits(self, crossed: usize, run: usize) -> bool
        ensures { result ≡ fits crossed run self }
    {
        0 < self.position && self.position < crossed && self.from < self.to && self.to <= run
    }

    // Whether it has a direction, and keeps to the ranges of the sides.
    #[tactic(auto, unfolding(crate::specs::Lines::in_range))]
    pub(crate) fn in_range(self, w: usize, h: usize) -> bool
        ensures { result ≡ in_range w h self }
    {
        match self.direction {
            0 => self.fits(w, h),
            1 => self.fits(h, w),
            _ => false,
        }
    }

    // Its direction, where it has one; the number is for records and callers, which may hold any.
    pub(crate) fn way(self) -> Direction
        ensures { result ≡ direction self.direction }
    {
        if self.direction == 0 {
            Direction::Upright
        } else {
            Direction::Level
        }
    }

    // Its first and its last knot: a drawn end at a side runs out. They differ in their tests, so one method would be no plainer.
    pub(crate) fn start(self) -> usize
        requires { self.from < largest_side }
        ensures { result ≡ start self }
    {
        if self.from == 0 { 0 } else { self.from + 1 }
    }

    pub(crate) fn end(self, run: usize) -> usize
        requires { (self.to ≤ run) × (run ≤ largest_side) }
        ensures { (result ≡ end run self) × (result ≤ 130) }
    {
        if self.to == run { run + 2 } else { self.to + 1 }
    }
}

// Draws a split, with its run-out, if it has the direction.
pub(crate) fn draw_split(s: Split, d: Direction, run: usize, steps: &mut [u8])
    requires { Rows (s.position + 2) steps.old × (run ≤ largest_side) ×
        (s.direction ≡ number d → (s.position < largest_side) × (s.from < s.to) × (s.to ≤ run)) }
    ensures { (length steps.new ≡ length steps.old) ×
        ((w h : ℕ) → side (other d) w h ≡ run → (z k : ℕ) →
        step_on steps.new z k ≡ (step_on steps.old z k || draws w h d z k s)) }
{
    if s.direction == d.number() {
        draw(steps, s.position + 1, s.start(), s.end(run));
    }
}

// Draws the fresh map's lines of one direction, over a mesh with none.
pub(crate) fn draw_fresh(crossed: usize, run: usize, steps: &mut [u8])
    requires { Zeros steps.old × Rows (crossed + 3) steps.old × (crossed ≤ largest_side) × (run ≤ largest_side) }
    ensures { (length steps.new ≡ length steps.old) ×
        ((d : Direction) (w h : ℕ) → side d w h ≡ crossed → side (other d) w h ≡ run → (z k : ℕ) →
        step_on steps.new z k ≡ fresh_mesh w h d z k) }
{
    for z in [0, 1, crossed + 1, crossed + 2] {
        draw(steps, z, 0, run + 2);
    }
}
