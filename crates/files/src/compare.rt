// Whether bytes are the file of a map that they told: entry by entry, so that nothing is written to compare with.
ghost use Rattle.std.specs.Prelude.{◌≡◌, eqb};
ghost use Rattle.axis.specs.Range.{agree};
ghost use Rattle.maps.specs.Record.{plain};
ghost use Rattle.files.specs.File.{file_in};

use crate::bytes::{Kind, has_entry};
use crate::entries::{Entry, drawn, numbers};
use crate::{HEAD, SPLIT, TAIL, value_size};
use maps::opened::Opened;

// Whether the bytes are the file of an opened map, or its old file: a test, as in the definitions.
pub(crate) fn is_file(bytes: &[u8], o: &Opened, old: bool) -> bool
    ensures { result ≡ agree eqb bytes.now (file_in old (plain o.now.map)) }
{
    let splits = drawn(o);
    if !has_entry(bytes, 0, Kind::Head, &[o.map.lines.w, o.map.lines.h]) {
        return false;
    }
    let mut at = HEAD;
    for split in splits {
        if !has_entry(bytes, at, Kind::Split, &numbers(split)) {
            return false;
        }
        at += SPLIT;
    }
    for i in 0..o.table.count {
        if !Entry::at(o, i).stands(bytes, at, old) {
            return false;
        }
        at += value_size(old);
    }
    has_entry(bytes, at, Kind::Tail, &[]) && bytes.len() == at + TAIL
}
