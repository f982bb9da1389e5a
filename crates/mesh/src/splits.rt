// A split within an allowance: one step on what is carried; and on lines that were replayed, whose table is in hand.
ghost use Rattle.std.specs.Prelude.{◌≡◌, ◌+◌, ◌*◌, ◌≤◌, MatchResult, IfOk, IfErr};
ghost use Rattle.axis.specs.Limits.{largest_side, most_allowance};
ghost use Rattle.mesh.specs.Lines.{Layout, layout};
ghost use Rattle.mesh.specs.Splits.{with_line};
ghost use Rattle.mesh.specs.Ends.{nearest_good};
ghost use Rattle.mesh.specs.Refusals.{number_of};
ghost use Rattle.mesh.specs.Replay.{HasTable, stepped, split_step};
ghost use Rattle.mesh.specs.Carried.{CarriedBy, Carries, NotedBy, SearchesBy, told_of, told_line, judged, found_by, verdict};

use crate::carried::{Drawing, LARGE, SMALL, SMALL_SIDE};
use crate::notes::Notes;
use crate::{Drawn, Lines, Refusal, Split, Table};

impl<const N: usize> Drawing<N> {
    // The line that a split takes, if there is one: nested loops over length and start, left with the first line between good ends, the form that document 01
    // asks for. Every other one contains it and so adds more live blends. The search stops at the longest allowed length; with none to spare it looks at the
    // given line alone. The ranges end with `+ 1`: `..=` was tried, and its second exit is one more goal for each loop.
    fn least_line(&self, notes: &Notes, longest: usize, s: Split) -> Option<Split>
        requires { SearchesBy self.now notes.now s × (longest ≤ 2 * largest_side) }
        ensures { (i : SearchesBy self.now notes.now s) → told_line s result ≡ found_by s longest (nearest_good (layout i.w i.h i.splits) s) }
    {
        let run = self.run(s.way());
        let mut found = None;
        'search: for length in s.to - s.from..longest + 1 {
            for from in s.to.saturating_sub(length)..s.from + 1 {
                let line = Split {
                    direction: s.direction,
                    position: s.position,
                    from,
                    to: from + length,
                };
                // A line that would reach past the side is no line.
                if line.to <= run && self.good_ends(notes, line) {
                    found = Some(line);
                    break 'search;
                }
            }
        }
        found
    }

    // Refusals 3 to 8 of a split, in their order, or the line that it draws, with the notes for its position.
    fn find(&self, s: Split, allowance: usize) -> Result<(Split, Notes), Refusal>
        requires { (allowance ≤ most_allowance) × Carries self.now }
        ensures { (P : Layout) → CarriedBy P self.now → MatchResult result (λ f. (told_of 0 f.0 ≡ verdict P s allowance) × NotedBy P f.0 f.1)
            (λ e. told_of (number_of e) s ≡ verdict P s allowance) }
    {
        let notes = self.look(s)?;
        let longest = s.to - s.from + allowance;
        match self.least_line(&notes, longest, s) {
            Some(line) => Ok((line, notes)),
            None => Err(Refusal::Unsound),
        }
    }

    // Takes a split. Accepted, its line is drawn and cut with; refused, it leaves all as it was.
    pub fn step(&mut self, s: Split, allowance: usize) -> Result<Split, Refusal>
        requires { (allowance ≤ most_allowance) × Carries self.old }
        ensures told { (P : Layout) → CarriedBy P self.old → judged s result ≡ verdict P s allowance }
        ensures drawn { (P : Layout) → CarriedBy P self.old → IfOk result (λ line. CarriedBy (with_line P line) self.new) }
        ensures kept { IfErr result (λ e. self.new ≡ self.old) }
    {
        let (line, notes) = self.find(s, allowance)?;
        self.draw(line, &notes);
        Ok(line)
    }
}

// In tables of N places: one step.
#[inline(never)]
fn split_in<const N: usize>(
    lines: &Lines,
    table: &Table,
    s: Split,
    allowance: usize,
) -> Result<Drawn, Refusal>
    requires { (allowance ≤ most_allowance) × HasTable lines.now table.now × ((lines.now.w + 3) * 131 ≤ N) × ((lines.now.h + 3) * 131 ≤ N) ×
        (N ≤ LARGE) }
    ensures { stepped table.now s result ≡ split_step lines.now table.now s allowance }
{
    let mut drawing = Drawing::<N>::clear(lines.w, lines.h);
    drawing.load(lines, table);
    let line = drawing.step(s, allowance)?;
    let after = drawing.read_out();
    Ok(Drawn { line, table: after })
}

pub fn split(lines: &Lines, table: &Table, s: Split, allowance: usize) -> Result<Drawn, Refusal>
    requires { HasTable lines.now table.now }
    ensures { stepped table.now s result ≡ split_step lines.now table.now s allowance }
{
    let most = Lines::MOST_ALLOWANCE;
    if most < allowance {
        return Err(Refusal::OutOfRange);
    }
    // A small map has few rows of knots, so its tables are short and soon cleared.
    if lines.w <= SMALL_SIDE && lines.h <= SMALL_SIDE {
        split_in::<SMALL>(lines, table, s, allowance)
    } else {
        split_in::<LARGE>(lines, table, s, allowance)
    }
}
