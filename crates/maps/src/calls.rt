// The calls on a map. Each opens the record first, once; a refusal leaves the map as it came. A row and a column are two calls, as document 02 has them, and
// the two changes three lines each, so one function for both would be no plainer.
ghost use Rattle.std.specs.Prelude.{◌≡◌};
ghost use Rattle.maps.specs.Calls.{set_value, table_place, reading, weights, split_within};
ghost use Rattle.maps.specs.Pairs.{row_pairs, column_pairs};
ghost use Rattle.maps.specs.Sameness.{sameness};

use crate::opened::Opened;
use crate::{Map, Pairs, Placed, Refusal, Weights};
use mesh::Split;

impl Map {
    ghost use Rattle.maps.specs.Told.{changed_to, placed, read_off, weighed, told_pairs, compared};

    // The blend, value and mark at a table place, from 0: refused with 2 or 9.
    pub fn place(&self, i: usize) -> Result<Placed, Refusal>
        ensures { placed result ≡ table_place self.now i }
    {
        Opened::open(self)?.place(i)
    }

    // The reading at a whole point: refused with 2 or 10.
    pub fn reading(&self, u: usize, v: usize) -> Result<usize, Refusal>
        ensures { read_off result ≡ reading self.now u v }
    {
        Opened::open(self)?.reading(u, v)
    }

    // The weights at a whole point: refused with 2 or 10.
    pub fn weights(&self, u: usize, v: usize) -> Result<Weights, Refusal>
        ensures { weighed result ≡ weights self.now u v }
    {
        Opened::open(self)?.weights(u, v)
    }

    // The pairs of neighbouring points of the row v of which one reading is below the wanted flow and the other is not, and the first: refused with 2, 10
    // or 13.
    pub fn row(&self, v: usize, wanted: usize) -> Result<Pairs, Refusal>
        ensures { told_pairs result ≡ row_pairs self.now v wanted }
    {
        Opened::open(self)?.row(v, wanted)
    }

    // The same up the column u: refused with 2, 10 or 13.
    pub fn column(&self, u: usize, wanted: usize) -> Result<Pairs, Refusal>
        ensures { told_pairs result ≡ column_pairs self.now u wanted }
    {
        Opened::open(self)?.column(u, wanted)
    }

    // Sets the value at the anchor (m, n) and marks it 1: refused with 2 or 9.
    pub fn set(&mut self, m: usize, n: usize, value: u16) -> Result<(), Refusal>
        ensures { changed_to self.new result ≡ set_value self.old m n value }
    {
        let mut opened = Opened::open(self)?;
        opened.set(m, n, value)?;
        *self = opened.map;
        Ok(())
    }

    // Draws the sound line through the given one that adds the fewest live blends and is longer by at most the allowance: refused with 2 to 8.
    pub fn split(&mut self, s: Split, allowance: usize) -> Result<(), Refusal>
        ensures { changed_to self.new result ≡ split_within self.old s allowance }
    {
        let mut opened = Opened::open(self)?;
        opened.split(s, allowance)?;
        *self = opened.map;
        Ok(())
    }

    // Whether two maps are the same; 2 where either record is not good.
    pub fn same(&self, other: &Map) -> Result<bool, Refusal>
        ensures { compared result ≡ sameness self.now other.now }
    {
        Ok(Opened::open(self)?.same(&Opened::open(other)?))
    }
}
