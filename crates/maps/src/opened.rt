// A record opened: its splits are replayed once, as exact splits, and the table of its live blends stands beside it. Every call on a map starts with
// `open`. What goes on from an opened record is the rest of a call, after the test of the record; it is open to the crates above, so that who has
// read a map from its file does not replay it again.
ghost use Rattle.std.specs.Prelude.{◌≡◌, Ok, ◌&&◌, Bool, leb};
ghost use Rattle.std.specs.List.{list_all};
ghost use Rattle.maps.specs.Calls.{fresh_map, set_value, table_place, reading, weights, split_within};
ghost use Rattle.maps.specs.Pairs.{row_pairs, column_pairs};
ghost use Rattle.maps.specs.Sameness.{sameness};
ghost use Rattle.maps.specs.Plain.{fresh_plain};
ghost use Rattle.maps.specs.Record.{Held, is_no_split, is_zero, record_of};
ghost use Rattle.maps.specs.Opened.{IsTable, opened};
ghost use Rattle.maps.specs.Inner.{is_level, along_pairs};

use crate::values::place_of;
use crate::walk::along;
use crate::{Map, Pairs, Placed, Refusal, Shape, Weights};
use mesh::replay::replay;
use mesh::splits::split;
use mesh::{Direction, Split, Table};

// A good record, and the table of its live blends. That its arrays are full and its values fit is known of a value, and not behind a reference, so it is kept.
#[derive(Clone, Copy)]
pub struct Opened {
    pub map: Map,
    pub table: Table,
    pub ghost opens: { IsTable map table },
    pub ghost held: { Held map },
}

// Whether splits are all zero.
fn no_splits(splits: &[Split]) -> bool
    ensures { result ≡ list_all is_no_split splits.now }
{
    splits.iter().all(|s| *s == Split::default())
}

// Whether all numbers pass a test. It does not stop at the first that fails, so that the compiler may look at several at once.
fn all_pass<T: Copy, F: Fn(T) -> bool>(numbers: &[T], passes: F) -> bool
    requires { F.IsAlwaysCallable passes }
    ensures { (test : T → Bool) → ((x : T) (r : Bool) → F.post passes x r → r ≡ test x) → result ≡ list_all test numbers.now }
{
    let mut all = true;
    for number in numbers {
        all &= passes(*number);
    }
    all
}

impl Opened {
    ghost use Rattle.maps.specs.Told.{changed_to, made_opened, opened_from, placed, read_off, weighed, told_pairs, compared};

    // Opens a record: 2 where it is not good.
    pub fn open(map: &Map) -> Result<Opened, Refusal>
        ensures { opened_from map.now result ≡ opened map.now }
    {
        let Some(table) = replay(&map.lines) else {
            return Err(Refusal::BadRecord);
        };
        if !no_splits(&map.lines.splits[map.lines.count..]) {
            return Err(Refusal::BadRecord);
        }
        if !all_pass(&map.values[table.count..], |value| value == 0) {
            return Err(Refusal::BadRecord);
        }
        if !all_pass(&map.marks, |mark| mark <= 1) {
            return Err(Refusal::BadRecord);
        }
        if !all_pass(&map.marks[table.count..], |mark| mark == 0) {
            return Err(Refusal::BadRecord);
        }
        Ok(Opened { map: *map, table })
    }

    // The fresh map of two sides, opened without a replay: its table is that of the first four blends.
    pub fn fresh(w: usize, h: usize) -> Result<Opened, Refusal>
        ensures { made_opened result ≡ fresh_map w h }
    {
        let map = Map::fresh(w, h)?;
        Ok(Opened {
            map,
            table: Table::fresh(w, h),
        })
    }

    // `Map::smallest`, opened.
    pub fn smallest() -> Opened
        ensures { result.map ≡ record_of (fresh_plain 1 1) }
    {
        Opened {
            map: Map::smallest(),
            table: Table::fresh(1, 1),
        }
    }

    // Whether the point (u, v) lies in the domain.
    fn contains(&self, u: usize, v: usize) -> bool
        ensures { result ≡ (leb u self.now.map.lines.w && leb v self.now.map.lines.h) }
    {
        u <= self.map.lines.w && v <= self.map.lines.h
    }

    // The rest of `Map::place`.
    pub fn place(&self, i: usize) -> Result<Placed, Refusal>
        ensures { placed result ≡ table_place self.now.map i }
    {
        if self.table.count <= i {
            return Err(Refusal::NoAnchor);
        }
        Ok(Placed {
            blend: Shape::from(self.table.blends[i]),
            value: usize::from(self.map.values[i]),
            mark: usize::from(self.map.marks[i]),
        })
    }

    // The rest of `Map::reading`.
    pub fn reading(&self, u: usize, v: usize) -> Result<usize, Refusal>
        ensures { read_off result ≡ reading self.now.map u v }
    {
        if !self.contains(u, v) {
            return Err(Refusal::Outside);
        }
        Ok(self.reading_at(u, v))
    }

    // The rest of `Map::weights`.
    pub fn weights(&self, u: usize, v: usize) -> Result<Weights, Refusal>
        ensures { weighed result ≡ weights self.now.map u v }
    {
        if !self.contains(u, v) {
            return Err(Refusal::Outside);
        }
        Ok(self.weights_at(u, v))
    }

    // The rest of `Map::row`, or of `Map::column`.
    fn along(&self, direction: Direction, at: usize, wanted: usize) -> Result<Pairs, Refusal>
        ensures { told_pairs result ≡ along_pairs self.now.map (is_level direction) at wanted }
    {
        let w = self.map.lines.w;
        let h = self.map.lines.h;
        if along(direction, h, w) < at {
            return Err(Refusal::Outside);
        }
        if wanted < 1 || 65535 < wanted {
            return Err(Refusal::NoPair);
        }
        self.pairs_along(direction, at, wanted)
            .ok_or(Refusal::NoPair)
    }

    // The rest of `Map::row`.
    pub fn row(&self, v: usize, wanted: usize) -> Result<Pairs, Refusal>
        ensures { told_pairs result ≡ row_pairs self.now.map v wanted }
    {
        self.along(Direction::Level, v, wanted)
    }

    // The rest of `Map::column`.
    pub fn column(&self, u: usize, wanted: usize) -> Result<Pairs, Refusal>
        ensures { told_pairs result ≡ column_pairs self.now.map u wanted }
    {
        self.along(Direction::Upright, u, wanted)
    }

    // The rest of `Map::set`.
    pub fn set(&mut self, m: usize, n: usize, value: u16) -> Result<(), Refusal>
        ensures { changed_to self.new.map result ≡ set_value self.old.map m n value }
    {
        // An anchor lies within the sides, so that its knots fit.
        if Map::LARGEST_SIDE < m || Map::LARGEST_SIDE < n {
            return Err(Refusal::NoAnchor);
        }
        let Some(place) = place_of(&self.table, m + 1, n + 1) else {
            return Err(Refusal::NoAnchor);
        };
        self.map.values[place] = value;
        self.map.marks[place] = 1;
        Ok(())
    }

    // The rest of `Map::split`.
    pub fn split(&mut self, s: Split, allowance: usize) -> Result<(), Refusal>
        ensures { changed_to self.new.map result ≡ split_within self.old.map s allowance }
    {
        let drawn = split(&self.map.lines, &self.table, s, allowance)?;
        let carried = self.carry(drawn.table.blends());
        let at = self.map.lines.count;
        self.map.lines.splits[at] = drawn.line;
        self.map.lines.count = at + 1;
        // The borrow checker does not cover an array of one struct stored straight into another.
        let values = carried.values;
        let marks = carried.marks;
        self.map.values = values;
        self.map.marks = marks;
        self.table = drawn.table;
        Ok(())
    }

    // The rest of `Map::same`.
    pub fn same(&self, other: &Opened) -> bool
        ensures { compared (Ok result) ≡ sameness self.now.map other.now.map }
    {
        let count = self.table.count;
        self.map.lines.w == other.map.lines.w
            && self.map.lines.h == other.map.lines.h
            && self.table.blends() == other.table.blends()
            && self.map.values[..count] == other.map.values[..count]
    }
}
