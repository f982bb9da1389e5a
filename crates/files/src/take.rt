// The numbers at a file's places, taken out of bytes.
ghost use Rattle.std.specs.Prelude.{◌≡◌, ◌+◌, ◌≤◌, length};
ghost use Rattle.axis.specs.Limits.{most_splits};
ghost use Rattle.files.specs.File.{head_size, split_size, split_count, split_at};
ghost use Rattle.files.specs.Inner.{Stand};

use crate::bytes::{Kind, word_at};
use crate::{ENDS, HEAD, SPLIT, value_size};
use maps::Map;
use mesh::{Lines, Split, Table};

// How many splits stand in a row after the head.
fn count_splits(bytes: &[u8]) -> usize
    ensures { result ≡ split_count bytes.now head_size most_splits }
{
    for n in 0..Map::MOST_SPLITS {
        let at = HEAD + SPLIT * n;
        if bytes.len() < at + SPLIT || word_at(bytes, at + 2) != Kind::Split as u16 {
            return n;
        }
    }
    Map::MOST_SPLITS
}

// The split at a byte place.
fn split_at(bytes: &[u8], at: usize) -> Split
    requires { at + split_size ≤ length bytes.now }
    ensures { result ≡ split_at bytes.now at }
{
    Split {
        direction: usize::from(word_at(bytes, at + 4)),
        position: usize::from(word_at(bytes, at + 6)),
        from: usize::from(word_at(bytes, at + 8)),
        to: usize::from(word_at(bytes, at + 10)),
    }
}

// Bytes, and where the numbers of a file stand in them, if they are one: after the head so many splits, then so many values, with marks or, in an old file,
// without.
#[derive(Clone, Copy)]
pub(crate) struct Places<'a> {
    bytes: &'a [u8],
    splits: usize,
    pub(crate) old: bool,
    values: usize,
    ghost stand: { Stand bytes.now splits old values },
}

impl<'a> Places<'a> {
    ghost use Rattle.std.specs.Prelude.{MatchOption};
    ghost use Rattle.maps.specs.Plain.{fresh_plain};
    ghost use Rattle.maps.specs.Record.{record_of};
    ghost use Rattle.maps.specs.Calls.{changed};
    ghost use Rattle.files.specs.File.{guessed};
    ghost use Rattle.files.specs.Calls.{read_file};

    // None where bytes of this length are no file.
    pub(crate) fn of(bytes: &'a [u8]) -> Option<Places<'a>>
        ensures { MatchOption result (changed 11 (record_of (fresh_plain 1 1)) ≡ read_file bytes.now) (λ p. p.bytes.now ≡ bytes.now) }
    {
        let splits = count_splits(bytes);
        let room = bytes.len().checked_sub(ENDS + SPLIT * splits)?;
        let old = word_at(bytes, HEAD + SPLIT * splits + 2) == Kind::OldValue as u16;
        let values = room / value_size(old);
        if Table::MOST_BLENDS < values {
            return None;
        }
        Some(Places {
            bytes,
            splits,
            old,
            values,
        })
    }

    // The map that the numbers make. Of a mark the low byte is taken.
    pub(crate) fn map(&self) -> Map
        ensures { result ≡ record_of (guessed self.now.bytes.now) }
    {
        let mut splits = [Split::default(); Map::MOST_SPLITS];
        for i in 0..self.splits {
            splits[i] = split_at(self.bytes, HEAD + SPLIT * i);
        }
        let start = HEAD + SPLIT * self.splits;
        let size = value_size(self.old);
        let mut values = [0u16; Table::MOST_BLENDS];
        let mut marks = [0u8; Table::MOST_BLENDS];
        for j in 0..self.values {
            let at = start + size * j;
            values[j] = word_at(self.bytes, at + 8);
            marks[j] = if self.old { 0 } else { self.bytes[at + 10] };
        }
        Map {
            lines: Lines {
                w: usize::from(word_at(self.bytes, 4)),
                h: usize::from(word_at(self.bytes, 6)),
                count: self.splits,
                splits,
            },
            values,
            marks,
        }
    }
}
