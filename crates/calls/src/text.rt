// The text of calls: a word, then numbers, each behind one blank.
ghost use Rattle.std.specs.Prelude.{◌<◌, ◌≤◌, length, IfSome};
ghost use Rattle.std.specs.Iterator.{IsFinite};

use mesh::Split;

// What a line calls for, and with what. Another map comes as the hexadecimal digits of its file.
#[derive(Clone, Copy)]
pub enum Call<'a> {
    History(usize, usize),
    Set(usize, usize, u16),
    Split(Split, usize),
    Place(usize),
    Reading(usize, usize),
    Weights(usize, usize),
    Row(usize, usize),
    Column(usize, usize),
    Same(&'a [u8]),
    File,
}

impl<'a> Call<'a> {
    // What a line calls for; none where it is no call.
    pub fn parse(line: &'a [u8]) -> Option<Call<'a>> {
        let mut words = line.split(|byte| *byte == b' ');
        let call = match words.next()? {
            b"history" => {
                let [w, h] = numbers::<2, _>(&mut words)?;
                Call::History(w, h)
            }
            b"set" => {
                let [m, n, value] = numbers::<3, _>(&mut words)?;
                Call::Set(m, n, u16::try_from(value).ok()?)
            }
            b"split" => {
                let [direction, position, from, to, allowance] = numbers::<5, _>(&mut words)?;
                let s = Split {
                    direction,
                    position,
                    from,
                    to,
                };
                Call::Split(s, allowance)
            }
            b"place" => {
                let [place] = numbers::<1, _>(&mut words)?;
                Call::Place(place)
            }
            b"reading" => {
                let [u, v] = numbers::<2, _>(&mut words)?;
                Call::Reading(u, v)
            }
            b"weights" => {
                let [u, v] = numbers::<2, _>(&mut words)?;
                Call::Weights(u, v)
            }
            b"row" => {
                let [v, wanted] = numbers::<2, _>(&mut words)?;
                Call::Row(v, wanted)
            }
            b"column" => {
                let [u, wanted] = numbers::<2, _>(&mut words)?;
                Call::Column(u, wanted)
            }
            b"same" => Call::Same(words.next()?),
            b"file" => Call::File,
            _ => return None,
        };
        words.next().is_none().then_some(call)
    }
}

// The next so many words as numbers.
fn numbers<'a, const K: usize, I: Iterator<Item = &'a [u8]>>(words: &mut I) -> Option<[usize; K]>
    requires { I.can_next words.old × IsFinite (I.remaining words.old) }
{
    let mut found = [0; K];
    for n in &mut found {
        *n = number(words.next()?)?;
    }
    Some(found)
}

// The number of a word's digits, below ten to the ninth.
fn number(word: &[u8]) -> Option<usize> {
    let mut value = 0;
    for byte in word {
        if !byte.is_ascii_digit() || 99999999 < value {
            return None;
        }
        value = value * 10 + usize::from(*byte - b'0');
    }
    (!word.is_empty()).then_some(value)
}

// What a hexadecimal digit's byte counts.
fn hex_digit(byte: u8) -> Option<u8>
    ensures { IfSome result (λ d. d < 16) }
{
    match byte {
        b'0'..=b'9' => Some(byte - b'0'),
        b'a'..=b'f' => Some(byte - b'a' + 10),
        _ => None,
    }
}

// The bytes that hexadecimal digits give, in the lent buffer; none where they give no bytes or too many.
pub fn unhex<'a>(digits: &[u8], buffer: &'a mut [u8]) -> Option<&'a [u8]>
    ensures { IfSome result (λ bytes. length bytes.now ≤ length buffer.old) }
{
    let (pairs, rest) = digits.as_chunks::<2>();
    if !rest.is_empty() {
        return None;
    }
    let bytes = buffer.get_mut(..pairs.len())?;
    for (byte, [high, low]) in bytes.iter_mut().zip(pairs) {
        *byte = hex_digit(*high)? * 16 + hex_digit(*low)?;
    }
    Some(bytes)
}
