// What a split meets on what is carried, and the drawing of its line. Nothing is drawn to be tried: 7 and 8 are told by the blends over the line's position.
ghost use Rattle.std.specs.Prelude.{◌≡◌, ◌+◌, ◌-◌, ◌≤◌, ◌<◌, MatchResult};
ghost use Rattle.axis.specs.Limits.{largest_side};
ghost use Rattle.axis.specs.Range.{some};
ghost use Rattle.mesh.specs.Lines.{Layout, direction, start, end, shares, ended};
ghost use Rattle.mesh.specs.Splits.{given, exact_number, with_line};
ghost use Rattle.mesh.specs.Refusals.{number_of};
ghost use Rattle.mesh.specs.Carried.{CarriedBy, Carries, NotedBy, RowAt, mesh_by, run_by, runs_from, runs_to, looks_good, looks_sound};

use crate::carried::Drawing;
use crate::notes::Notes;
use crate::{Direction, Lines, Refusal, Split};
use axis::Side;

impl<const N: usize> Drawing<N> {
    // Whether the unit step from knot k, of a line of the direction at knot z, is on.
    fn on(&self, d: Direction, z: usize, k: usize) -> bool
        requires { RowAt z self.now × (k < 131) }
        ensures { result ≡ mesh_by self.now d z k }
    {
        match d {
            Direction::Upright => self.uprights[z * 131 + k] != 0,
            Direction::Level => self.levels[z * 131 + k] != 0,
        }
    }

    // Whether some of the n steps from knot `from` on is on.
    fn some_on(&self, d: Direction, z: usize, from: usize, n: usize) -> bool
        requires { RowAt z self.now × (from + n ≤ 131) }
        ensures { result ≡ some from n (mesh_by self.now d z) }
    {
        for k in from..from + n {
            if self.on(d, z, k) {
                return true;
            }
        }
        false
    }

    // Whether a split shares a unit step with a line at its position.
    fn shares_step(&self, s: Split) -> bool
        requires { RowAt (s.position + 1) self.now × (s.from < s.to) × (s.to ≤ largest_side) }
        ensures { result ≡ shares (mesh_by self.now) s }
    {
        self.some_on(s.way(), s.position + 1, s.from + 1, s.to - s.from)
    }

    // Whether both its ends lie on lines that cross it: on a step up to its position, or from there on.
    fn ends_on_lines(&self, s: Split) -> bool
        requires { RowAt (s.to + 1) self.now × (s.position < largest_side) × (s.from < s.to) × (s.to ≤ largest_side) }
        ensures { result ≡ ended (mesh_by self.now) s }
    {
        let across = s.way().other();
        self.some_on(across, s.from + 1, s.position, 2)
            && self.some_on(across, s.to + 1, s.position, 2)
    }

    // The knots from which and to which a split's line runs once it is drawn, with the lines at its position that it touches. One runs down and one up, so one
    // loop would be no plainer.
    fn runs_from(&self, s: Split) -> usize
        requires { RowAt (s.position + 1) self.now × (s.from < largest_side) }
        ensures { result ≡ runs_from (mesh_by self.now (direction s.direction) (s.position + 1)) (start s) }
    {
        for k in (0..s.start()).rev() {
            if !self.on(s.way(), s.position + 1, k) {
                return k + 1;
            }
        }
        0
    }

    fn runs_to(&self, s: Split) -> usize
        requires { RowAt (s.position + 1) self.now × (s.to ≤ run_by self.now (direction s.direction)) ×
            (run_by self.now (direction s.direction) ≤ largest_side) }
        ensures { (result ≡ runs_to (mesh_by self.now (direction s.direction) (s.position + 1)) (end (run_by self.now (direction s.direction)) s)
            (131 - end (run_by self.now (direction s.direction)) s)) × (result ≤ 131) }
    {
        for k in s.end(self.run(s.way()))..131 {
            if !self.on(s.way(), s.position + 1, k) {
                return k;
            }
        }
        131
    }

    // The side that lines of the direction run along.
    pub fn run(&self, d: Direction) -> usize
        ensures { result ≡ run_by self.now d }
    {
        match d {
            Direction::Upright => self.h,
            Direction::Level => self.w,
        }
    }

    // Refusals 3 to 7, in their order; where none applies the notes for the split's position.
    pub fn look(&self, s: Split) -> Result<Notes, Refusal>
        requires { Carries self.now }
        ensures { (P : Layout) → CarriedBy P self.now →
            MatchResult result (λ n. (given P s ≡ 0) × NotedBy P s n) (λ e. given P s ≡ number_of e) }
    {
        if !s.in_range(self.w, self.h) {
            return Err(Refusal::OutOfRange);
        }
        if Lines::MOST_SPLITS <= self.count {
            return Err(Refusal::Full);
        }
        if self.shares_step(s) {
            return Err(Refusal::Shared);
        }
        if !self.ends_on_lines(s) {
            return Err(Refusal::OpenEnd);
        }
        let d = s.way();
        let notes = self.notes(d, s.position + 1);
        if !notes.some_reached(d, self.runs_from(s), self.runs_to(s)) {
            return Err(Refusal::CutsNothing);
        }
        Ok(notes)
    }

    // Whether an end of a line, at knot k, is good: the gap's, or one at which a blend before the line and one after it are alike.
    fn good_end(&self, notes: &Notes, d: Direction, z: usize, end: Side, k: usize) -> bool
        requires { RowAt z self.now × (1 ≤ k) × (k < 131) × (run_by self.now d ≤ largest_side) }
        ensures { result ≡ looks_good (mesh_by self.now) d z (run_by self.now d) notes.now.lows notes.now.highs end k }
    {
        let ends_gap = match end {
            Side::Lower => k == 1 || self.on(d, z, k - 1),
            Side::Upper => k == self.run(d) + 1 || self.on(d, z, k),
        };
        ends_gap || notes.alike_at(d, k, end)
    }

    pub fn good_ends(&self, notes: &Notes, s: Split) -> bool
        requires { RowAt (s.position + 1) self.now × (s.from < largest_side) × (s.to ≤ largest_side) ×
            (run_by self.now (direction s.direction) ≤ largest_side) }
        ensures { result ≡ looks_sound (mesh_by self.now) (run_by self.now (direction s.direction)) notes.now.lows notes.now.highs s }
    {
        let d = s.way();
        let z = s.position + 1;
        self.good_end(notes, d, z, Side::Lower, s.from + 1)
            && self.good_end(notes, d, z, Side::Upper, s.to + 1)
    }

    // Draws a split that is accepted, and cuts with it.
    pub fn draw(&mut self, s: Split, notes: &Notes)
        requires { (P : Layout) × CarriedBy P self.old × NotedBy P s notes.now × (exact_number P s ≡ 0) }
        ensures { (P : Layout) → CarriedBy P self.old → NotedBy P s notes.now → exact_number P s ≡ 0 → CarriedBy (with_line P s) self.new }
    {
        let from = self.runs_from(s);
        let to = self.runs_to(s);
        self.add_line(s);
        notes.cut_reached(
            &self.uprights,
            &self.levels,
            s.way(),
            from,
            to,
            &mut self.places,
        );
    }
}
