// Questions to the map of a file, and to the bytes themselves.
ghost use Rattle.std.specs.Prelude.{◌≡◌, ◌≤◌, cond, length};
ghost use Rattle.axis.specs.Range.{joined};
ghost use Rattle.files.specs.File.{put};
ghost use Rattle.files.specs.Calls.{payload_number};
ghost use Rattle.files.specs.Told.{number_in};
ghost use Rattle.files.specs.Listing.{text_number, text_written, text_after};
ghost use Rattle.maps.specs.Told.{told_pairs, compared};
ghost use Rattle.maps.specs.Pairs.{row_pairs, column_pairs};
ghost use Rattle.pump.specs.Border.{place_number, place_after, weight_bytes, weights_number, weights_after, reading_number, reading_litres, pairs_number, pairs_count, pairs_first, same_number, same_yes, check_number, payload_from, payload_count};

use crate::numbers::{number, words_of};
use files::bytes::{payload, put_words};
use files::listing::list;
use files::{read, read_opened};
use maps::{Pairs, Refusal, Weight};

fn place_in(file: &[u8], place: usize, out: &mut [u8]) -> Result<(), Refusal>
    ensures { (number_in result ≡ place_number file.now place out.old) ×
        (out.new ≡ place_after file.now place out.old) }
{
    let entry = read_opened(file)?.place(place)?;
    if out.len() < 16 {
        return Err(Refusal::ShortBuffer);
    }
    put_words(out, 0, &words_of(entry.blend, entry.value, entry.mark));
    Ok(())
}

pub fn pump_place(file: &[u8], place: usize, out: &mut [u8]) -> usize
    ensures { (result ≡ place_number file.now place out.old) ×
        (out.new ≡ place_after file.now place out.old) }
{
    number(&place_in(file, place, out))
}

pub fn pump_reading(file: &[u8], u: usize, v: usize, litres: &mut usize) -> usize
    ensures { (result ≡ reading_number file.now u v) × (litres.new ≡ reading_litres file.now u v) }
{
    let answer = read_opened(file).and_then(|map| map.reading(u, v));
    *litres = answer.unwrap_or(0);
    number(&answer)
}

// Puts the four entries of the weights in a row.
fn put_weights(out: &mut [u8], entries: &[Weight; 4])
    requires { 64 ≤ length out.old }
    ensures { out.new ≡ put out.old 0 (joined weight_bytes entries.now) }
{
    for (i, entry) in entries.iter().enumerate() {
        let words = words_of(entry.blend, entry.numerator, entry.denominator);
        put_words(out, 16 * i, &words);
    }
}

fn weights_in(file: &[u8], u: usize, v: usize, out: &mut [u8]) -> Result<(), Refusal>
    ensures { (number_in result ≡ weights_number file.now u v out.old) ×
        (out.new ≡ weights_after file.now u v out.old) }
{
    let four = read_opened(file)?.weights(u, v)?;
    if out.len() < 64 {
        return Err(Refusal::ShortBuffer);
    }
    put_weights(out, &four.entries);
    Ok(())
}

pub fn pump_weights(file: &[u8], u: usize, v: usize, out: &mut [u8]) -> usize
    ensures { (result ≡ weights_number file.now u v out.old) ×
        (out.new ≡ weights_after file.now u v out.old) }
{
    number(&weights_in(file, u, v, out))
}

// Ends a call along a row or a column: the pairs and the number of the answer; a refusal gives no pairs.
fn tell_pairs(answer: Result<Pairs, Refusal>, count: &mut usize, first: &mut usize) -> usize
    ensures { (result ≡ (told_pairs answer).number) × (count.new ≡ (told_pairs answer).count) ×
        (first.new ≡ (told_pairs answer).first) }
{
    let none = Pairs { count: 0, first: 0 };
    let pairs = answer.unwrap_or(none);
    *count = pairs.count;
    *first = pairs.first;
    number(&answer)
}

// A row and a column are two functions for C.
pub fn pump_row(file: &[u8], v: usize, wanted: usize, count: &mut usize, first: &mut usize) -> usize
    ensures { (result ≡ pairs_number (λ m. row_pairs m v wanted) file.now) ×
        (count.new ≡ pairs_count (λ m. row_pairs m v wanted) file.now) ×
        (first.new ≡ pairs_first (λ m. row_pairs m v wanted) file.now) }
{
    tell_pairs(
        read_opened(file).and_then(|map| map.row(v, wanted)),
        count,
        first,
    )
}

pub fn pump_column(
    file: &[u8],
    u: usize,
    wanted: usize,
    count: &mut usize,
    first: &mut usize,
) -> usize
    ensures { (result ≡ pairs_number (λ m. column_pairs m u wanted) file.now) ×
        (count.new ≡ pairs_count (λ m. column_pairs m u wanted) file.now) ×
        (first.new ≡ pairs_first (λ m. column_pairs m u wanted) file.now) }
{
    tell_pairs(
        read_opened(file).and_then(|map| map.column(u, wanted)),
        count,
        first,
    )
}

// Whether two files' maps are the same.
fn same_in<'a>(one: &'a [u8], two: &'a [u8]) -> Result<bool, Refusal>
    ensures { (number_in result ≡ same_number one.now two.now) ×
        (cond (compared result).yes 1 0 ≡ same_yes one.now two.now) }
{
    let left = read_opened(one)?;
    let right = read_opened(two)?;
    Ok(left.same(&right))
}

pub fn pump_same<'a>(one: &'a [u8], two: &'a [u8], yes: &mut usize) -> usize
    ensures { (result ≡ same_number one.now two.now) × (yes.new ≡ same_yes one.now two.now) }
{
    let answer = same_in(one, two);
    *yes = usize::from(answer.unwrap_or(false));
    number(&answer)
}

pub fn pump_check(file: &[u8]) -> usize
    ensures { result ≡ check_number file.now }
{
    number(&read(file))
}

pub fn pump_payload(bytes: &[u8], place: usize, from: &mut usize, count: &mut usize) -> usize
    ensures { (result ≡ payload_number bytes.now place) × (from.new ≡ payload_from bytes.now place) ×
        (count.new ≡ payload_count bytes.now place) }
{
    match payload(bytes, place) {
        Ok(part) => {
            *from = place + 4;
            *count = part.len();
            0
        }
        Err(refusal) => {
            *from = 0;
            *count = 0;
            refusal.number()
        }
    }
}

pub fn pump_table(file: &[u8], out: &mut [u8], count: &mut usize) -> usize
    ensures { (result ≡ text_number file.now out.old) × (out.new ≡ text_after file.now out.old) ×
        (count.new ≡ (text_written file.now out.old).length) }
{
    let text = list(file, out);
    *count = text.unwrap_or(0);
    number(&text)
}
