// Numbers of 16 bits in bytes, the records that they make, and the walk from record to record.
ghost use Rattle.std.specs.Prelude.{◌≡◌, Some, None, ◌+◌, ◌*◌, ◌≤◌, ◌<◌, length, drop, cond};
ghost use Rattle.axis.specs.Range.{joined};
ghost use Rattle.files.specs.Inner.{begins};
ghost use Rattle.files.specs.Kinds.{kind_number};
ghost use Rattle.files.specs.File.{word, word_at, entry, put, put_words};
ghost use Rattle.files.specs.Calls.{whole, payload_number, payload_at};
ghost use Rattle.files.specs.Told.{number_in, part_in};

use maps::Refusal;

// The number at a byte place.
pub(crate) fn word_at(bytes: &[u8], at: usize) -> u16
    requires { at + 2 ≤ length bytes.now }
    ensures { result ≡ word_at bytes.now at }
{
    u16::from_le_bytes([bytes[at], bytes[at + 1]])
}

// Whether a number stands at a byte place.
fn has_word(bytes: &[u8], at: usize, n: usize) -> bool
    requires { at + 2 ≤ length bytes.now }
    ensures { result ≡ begins (drop at bytes.now) (word n) }
{
    usize::from(word_at(bytes, at)) == n % 65536
}

// Whether numbers stand in a row from a byte place on.
fn has_words(bytes: &[u8], at: usize, words: &[usize]) -> bool
    requires { at ≤ length bytes.now }
    ensures { result ≡ begins (drop at bytes.now) (joined word words.now) }
{
    if (bytes.len() - at) / 2 < words.len() {
        return false;
    }
    for (i, &n) in words.iter().enumerate() {
        if !has_word(bytes, at + 2 * i, n) {
            return false;
        }
    }
    true
}

// Puts numbers in a row from a byte place on, where they fit. A file's records stand at known places, so bytes and a place are all that this needs.
pub fn put_words(bytes: &mut [u8], at: usize, words: &[usize])
    ensures { bytes.new ≡ put_words bytes.old at words.now }
{
    if bytes.len() < at || (bytes.len() - at) / 2 < words.len() {
        return;
    }
    for (i, &n) in words.iter().enumerate() {
        bytes[at + 2 * i] = (n % 256) as u8;
        bytes[at + 2 * i + 1] = (n / 256 % 256) as u8;
    }
}

// The kinds of a file's records, by their numbers. A value has its mark but in an old file.
#[derive(Clone, Copy, Debug, PartialEq, Eq)]
pub(crate) enum Kind {
    Head = 1,
    Split,
    OldValue,
    Tail,
    Value,
}

impl Kind {
    fn number(self) -> usize
        ensures { result ≡ kind_number self }
    {
        self as usize
    }
}

// Whether a record of a kind with a payload stands at a byte place.
pub(crate) fn has_entry(bytes: &[u8], at: usize, kind: Kind, payload: &[usize]) -> bool
    requires { (at ≤ length bytes.now) × (length payload.now ≤ 4) }
    ensures { result ≡ begins (drop at bytes.now) (entry (kind_number kind) payload.now) }
{
    let kind = kind.number();
    let front = [2 + 2 * payload.len(), kind];
    has_words(bytes, at, &front) && has_words(bytes, at + 4, payload)
}

// Puts a record of a kind with a payload.
pub(crate) fn put_entry(bytes: &mut [u8], at: usize, kind: Kind, payload: &[usize])
    requires { at + (4 + 2 * length payload.now) ≤ length bytes.old }
    ensures { bytes.new ≡ put bytes.old at (entry (kind_number kind) payload.now) }
{
    let kind = kind.number();
    let front = [2 + 2 * payload.len(), kind];
    put_words(bytes, at, &front);
    put_words(bytes, at + 4, payload);
}

// The length of the whole record at a byte place.
fn size_at(bytes: &[u8], at: usize) -> Option<usize>
    ensures { result ≡ cond (whole bytes.now at) (Some (word_at bytes.now at)) None }
{
    let room = bytes.len().checked_sub(2)?.checked_sub(at)?;
    let size = usize::from(word_at(bytes, at));
    if 2 <= size && size <= room {
        Some(size)
    } else {
        None
    }
}

// The payload of the record at a byte place: that part of the bytes; refused with 11 where no whole record is there.
pub fn payload<'a>(bytes: &'a [u8], at: usize) -> Result<&'a [u8], Refusal>
    ensures { (part_in result ≡ payload_at bytes.now at) × (number_in result ≡ payload_number bytes.now at) }
{
    let size = size_at(bytes, at).ok_or(Refusal::NoFile)?;
    let from = at + 4;
    let to = at + 2 + size;
    Ok(&bytes[from..to])
}
