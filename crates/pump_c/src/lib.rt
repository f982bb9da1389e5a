// What C and other languages link: c/pump.h tells each call and number. Each hands its call to the library, and promises what that promises.

#![tactic(auto)]

ghost use Rattle.std.specs.Prelude.{◌≡◌};
ghost use Rattle.maps.specs.Calls.{split_within};
ghost use Rattle.files.specs.Calls.{payload_number};
ghost use Rattle.pump.specs.Border.{fresh_number, fresh_bytes, fresh_used, change_number, change_bytes, change_used, set_wide, split_of, place_number, place_after, weights_number, weights_after, reading_number, reading_litres, pairs_number, pairs_count, pairs_first, same_number, same_yes, check_number, payload_from, payload_count};
ghost use Rattle.files.specs.Listing.{text_number, text_written, text_after};
ghost use Rattle.maps.specs.Pairs.{row_pairs, column_pairs};

use pump::{changes, questions};

#[unsafe(no_mangle)]
pub extern "C" fn pump_fresh(w: usize, h: usize, buffer: &mut [u8], used: &mut usize) -> usize
    ensures { (result ≡ fresh_number w h buffer.old) × (buffer.new ≡ fresh_bytes w h buffer.old) ×
        (used.new ≡ fresh_used w h buffer.old used.old) }
{
    changes::pump_fresh(w, h, buffer, used)
}

#[unsafe(no_mangle)]
pub extern "C" fn pump_set(
    buffer: &mut [u8],
    used: &mut usize,
    m: usize,
    n: usize,
    value: usize,
) -> usize
    ensures { (result ≡ change_number (λ old. set_wide old m n value) buffer.old used.old) ×
        (buffer.new ≡ change_bytes (λ old. set_wide old m n value) buffer.old used.old) ×
        (used.new ≡ change_used (λ old. set_wide old m n value) buffer.old used.old) }
{
    changes::pump_set(buffer, used, m, n, value)
}

#[unsafe(no_mangle)]
pub extern "C" fn pump_split(
    buffer: &mut [u8],
    used: &mut usize,
    direction: usize,
    position: usize,
    from: usize,
    to: usize,
    allowance: usize,
) -> usize
    ensures { (result ≡ change_number (λ old. split_within old (split_of direction position from to) allowance) buffer.old used.old) ×
        (buffer.new ≡ change_bytes (λ old. split_within old (split_of direction position from to) allowance) buffer.old used.old) ×
        (used.new ≡ change_used (λ old. split_within old (split_of direction position from to) allowance) buffer.old used.old) }
{
    changes::pump_split(buffer, used, direction, position, from, to, allowance)
}

#[unsafe(no_mangle)]
pub extern "C" fn pump_place(file: &[u8], place: usize, out: &mut [u8]) -> usize
    ensures { (result ≡ place_number file.now place out.old) ×
        (out.new ≡ place_after file.now place out.old) }
{
    questions::pump_place(file, place, out)
}

#[unsafe(no_mangle)]
pub extern "C" fn pump_reading(file: &[u8], u: usize, v: usize, litres: &mut usize) -> usize
    ensures { (result ≡ reading_number file.now u v) × (litres.new ≡ reading_litres file.now u v) }
{
    questions::pump_reading(file, u, v, litres)
}

#[unsafe(no_mangle)]
pub extern "C" fn pump_weights(file: &[u8], u: usize, v: usize, out: &mut [u8]) -> usize
    ensures { (result ≡ weights_number file.now u v out.old) ×
        (out.new ≡ weights_after file.now u v out.old) }
{
    questions::pump_weights(file, u, v, out)
}

#[unsafe(no_mangle)]
pub extern "C" fn pump_row(
    file: &[u8],
    v: usize,
    wanted: usize,
    count: &mut usize,
    first: &mut usize,
) -> usize
    ensures { (result ≡ pairs_number (λ m. row_pairs m v wanted) file.now) ×
        (count.new ≡ pairs_count (λ m. row_pairs m v wanted) file.now) ×
        (first.new ≡ pairs_first (λ m. row_pairs m v wanted) file.now) }
{
    questions::pump_row(file, v, wanted, count, first)
}

#[unsafe(no_mangle)]
pub extern "C" fn pump_column(
    file: &[u8],
    u: usize,
    wanted: usize,
    count: &mut usize,
    first: &mut usize,
) -> usize
    ensures { (result ≡ pairs_number (λ m. column_pairs m u wanted) file.now) ×
        (count.new ≡ pairs_count (λ m. column_pairs m u wanted) file.now) ×
        (first.new ≡ pairs_first (λ m. column_pairs m u wanted) file.now) }
{
    questions::pump_column(file, u, wanted, count, first)
}

#[unsafe(no_mangle)]
pub extern "C" fn pump_same<'a>(one: &'a [u8], two: &'a [u8], yes: &mut usize) -> usize
    ensures { (result ≡ same_number one.now two.now) × (yes.new ≡ same_yes one.now two.now) }
{
    questions::pump_same(one, two, yes)
}

#[unsafe(no_mangle)]
pub extern "C" fn pump_check(file: &[u8]) -> usize
    ensures { result ≡ check_number file.now }
{
    questions::pump_check(file)
}

#[unsafe(no_mangle)]
pub extern "C" fn pump_payload(
    bytes: &[u8],
    place: usize,
    from: &mut usize,
    count: &mut usize,
) -> usize
    ensures { (result ≡ payload_number bytes.now place) × (from.new ≡ payload_from bytes.now place) ×
        (count.new ≡ payload_count bytes.now place) }
{
    questions::pump_payload(bytes, place, from, count)
}

#[unsafe(no_mangle)]
pub extern "C" fn pump_table(file: &[u8], out: &mut [u8], count: &mut usize) -> usize
    ensures { (result ≡ text_number file.now out.old) × (out.new ≡ text_after file.now out.old) ×
        (count.new ≡ (text_written file.now out.old).length) }
{
    questions::pump_table(file, out, count)
}
