// The entries of a map's file: a split's numbers, and a value at its anchor.
ghost use Rattle.std.specs.Prelude.{◌≡◌, [], ◌∷◌, take};
ghost use Rattle.mesh.specs.Sound.{Proper};
ghost use Rattle.maps.specs.Record.{Full};

use crate::bytes::{Kind, has_entry, put_entry};
use maps::opened::Opened;
use mesh::{Blend, Split};

// The splits of an opened map.
pub(crate) fn drawn(o: &Opened) -> &[Split]
    ensures { (result.now ≡ take o.now.map.lines.count o.now.map.lines.splits) × Full o.now.map }
{
    &o.map.lines.splits[..o.map.lines.count]
}

// A split's numbers.
pub(crate) fn numbers(s: &Split) -> [usize; 4]
    ensures { result ≡ s.now.direction ∷ s.now.position ∷ s.now.from ∷ s.now.to ∷ [] }
{
    [s.direction, s.position, s.from, s.to]
}

// A table entry: a blend, its value and the value's mark.
#[derive(Clone, Copy)]
pub(crate) struct Entry {
    pub(crate) blend: Blend,
    pub(crate) value: u16,
    pub(crate) mark: u8,
    ghost rises: { Proper blend },
}

impl Entry {
    ghost use Rattle.std.specs.Prelude.{false, ◌+◌, ◌<◌, ◌≤◌, ◌++◌, length, drop, get_or};
    ghost use Rattle.maps.specs.Values.{term};
    ghost use Rattle.files.specs.File.{value_size, place_and_value, value_entry, put};
    ghost use Rattle.files.specs.Inner.{begins, told, no_entry, entries};

    // The entry at a table place.
    pub(crate) fn at(o: &Opened, i: usize) -> Entry
        requires { i < o.now.table.count }
        ensures { told result ≡ get_or (entries o.now) i no_entry }
    {
        Entry {
            blend: o.table.blends[i],
            value: o.map.values[i],
            mark: o.map.marks[i],
        }
    }

    // Its anchor, value and mark.
    fn numbers(self) -> [usize; 4]
        ensures { result ≡ place_and_value (term self.blend self.value) ++ self.mark ∷ [] }
    {
        [
            usize::from(self.blend.across.m - 1),
            usize::from(self.blend.up.m - 1),
            usize::from(self.value),
            usize::from(self.mark),
        ]
    }

    // Whether it stands at a byte place, with its mark or, in an old file, without.
    pub(crate) fn stands(self, bytes: &[u8], at: usize, old: bool) -> bool
        requires { at ≤ length bytes.now }
        ensures { result ≡ begins (drop at bytes.now) (value_entry old (told self)) }
    {
        let numbers = self.numbers();
        if old {
            has_entry(bytes, at, Kind::OldValue, &numbers[..3])
        } else {
            has_entry(bytes, at, Kind::Value, &numbers)
        }
    }

    // Puts it with its mark.
    pub(crate) fn put(self, bytes: &mut [u8], at: usize)
        requires { at + value_size false ≤ length bytes.old }
        ensures { bytes.new ≡ put bytes.old at (value_entry false (told self)) }
    {
        put_entry(bytes, at, Kind::Value, &self.numbers());
    }
}
