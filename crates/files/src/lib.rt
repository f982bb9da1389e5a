// Map files: the third of the three layers.

#![tactic(auto)]

pub mod bytes;
mod compare;
mod entries;
pub mod listing;
mod take;

ghost use Rattle.std.specs.Prelude.{◌≡◌};
ghost use Rattle.maps.specs.Told.{made, made_opened};
ghost use Rattle.files.specs.File.{value_size};
ghost use Rattle.files.specs.Calls.{written, after, read_file};
ghost use Rattle.files.specs.Told.{written_as};

use crate::bytes::{Kind, put_entry};
use crate::compare::is_file;
use crate::entries::{Entry, drawn, numbers};
use crate::take::Places;
use maps::opened::Opened;
use maps::{Map, Refusal};
use mesh::Table;

// The bytes of a record of each kind, its length and kind among them, of a value with its mark and, in an old file, without; of the head and the tail
// together; and of the largest file.
pub(crate) const HEAD: usize = 8;

pub(crate) const SPLIT: usize = 12;

pub(crate) const VALUE: usize = 12;

pub(crate) const OLD_VALUE: usize = 10;

pub(crate) const TAIL: usize = 4;

pub(crate) const ENDS: usize = HEAD + TAIL;

pub const LARGEST_FILE: usize = ENDS + SPLIT * Map::MOST_SPLITS + VALUE * Table::MOST_BLENDS;

// The bytes of a value's record in an old file, or in another. Whether a file is old is a test, as in the definitions (`is_old`, `file_in`).
pub(crate) fn value_size(old: bool) -> usize
    ensures { result ≡ value_size old }
{
    if old { OLD_VALUE } else { VALUE }
}

// Writes a map's file into a lent buffer, and tells how many bytes it has: refused with 2 or 12.
pub fn write(map: &Map, buffer: &mut [u8]) -> Result<usize, Refusal>
    ensures { (written_as result ≡ written map.now buffer.old) × (buffer.new ≡ after map.now buffer.old) }
{
    let Ok(opened) = Opened::open(map) else {
        return Err(Refusal::BadRecord);
    };
    write_opened(&opened, buffer)
}

// The rest of `write`, after the record is opened.
pub fn write_opened(o: &Opened, buffer: &mut [u8]) -> Result<usize, Refusal>
    ensures { (written_as result ≡ written o.now.map buffer.old) × (buffer.new ≡ after o.now.map buffer.old) }
{
    let splits = drawn(o);
    let length = ENDS + SPLIT * splits.len() + VALUE * o.table.count;
    if buffer.len() < length {
        return Err(Refusal::ShortBuffer);
    }
    put_entry(buffer, 0, Kind::Head, &[o.map.lines.w, o.map.lines.h]);
    for (i, split) in splits.iter().enumerate() {
        put_entry(buffer, HEAD + SPLIT * i, Kind::Split, &numbers(split));
    }
    let at = HEAD + SPLIT * splits.len();
    for j in 0..o.table.count {
        Entry::at(o, j).put(buffer, at + VALUE * j);
    }
    put_entry(buffer, at + VALUE * o.table.count, Kind::Tail, &[]);
    Ok(length)
}

// The map whose file, or old file, the bytes are: refused with 11.
pub fn read(bytes: &[u8]) -> Result<Map, Refusal>
    ensures { made result ≡ read_file bytes.now }
{
    Ok(read_opened(bytes)?.map)
}

// `read`, with the map opened, so that its record is not replayed again for a call on it. The numbers at a file's places make a
// map; the bytes are its file, in the form that their first value has, where they agree with it entry by entry.
pub fn read_opened(bytes: &[u8]) -> Result<Opened, Refusal>
    ensures { made_opened result ≡ read_file bytes.now }
{
    let places = Places::of(bytes).ok_or(Refusal::NoFile)?;
    let map = places.map();
    let Ok(opened) = Opened::open(&map) else {
        return Err(Refusal::NoFile);
    };
    if !is_file(bytes, &opened, places.old) {
        return Err(Refusal::NoFile);
    }
    Ok(opened)
}
