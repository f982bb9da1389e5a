// Calls that make a new map, whose file then stands in the lent buffer.
ghost use Rattle.std.specs.Prelude.{◌≡◌};
ghost use Rattle.std.specs.Fn.{FnOnceReturnsAtMut};
ghost use Rattle.maps.specs.Calls.{changed, split_within};
ghost use Rattle.maps.specs.Told.{changed_to, made_opened};
ghost use Rattle.maps.specs.declared.Map.{Map};
ghost use Rattle.maps.specs.Outcomes.{Changed};
ghost use Rattle.files.specs.Calls.{read_file};
ghost use Rattle.files.specs.Told.{number_in};
ghost use Rattle.pump.specs.Border.{new_number, new_bytes, new_used, fresh_number, fresh_bytes, fresh_used, lent, change_number, change_bytes, change_used, set_wide, split_of};
ghost use Rattle.pump.specs.Steps.{Does};

use crate::numbers::number;
use files::{read_opened, write_opened};
use maps::Refusal;
use maps::opened::Opened;
use mesh::Split;

// The map whose file the first `used` bytes are; there is none where fewer are lent. It is a call of its own, so that what reading needs is gone from
// the stack before a change.
#[inline(never)]
fn read_lent(bytes: &[u8], used: usize) -> Result<Opened, Refusal>
    ensures { made_opened result ≡ read_file (lent bytes.now used) }
{
    read_opened(bytes.get(..used).unwrap_or(&[]))
}

// Puts a new map's file in the buffer.
fn put(next: &Opened, buffer: &mut [u8], used: &mut usize) -> Result<(), Refusal>
    ensures { (number_in result ≡ new_number 0 (changed 0 next.now.map) buffer.old) ×
        (buffer.new ≡ new_bytes 0 (changed 0 next.now.map) buffer.old) ×
        (used.new ≡ new_used 0 (changed 0 next.now.map) buffer.old used.old) }
{
    *used = write_opened(next, buffer)?;
    Ok(())
}

fn fresh_in(w: usize, h: usize, buffer: &mut [u8], used: &mut usize) -> Result<(), Refusal>
    ensures { (number_in result ≡ fresh_number w h buffer.old) × (buffer.new ≡ fresh_bytes w h buffer.old) ×
        (used.new ≡ fresh_used w h buffer.old used.old) }
{
    put(&Opened::fresh(w, h)?, buffer, used)
}

pub fn pump_fresh(w: usize, h: usize, buffer: &mut [u8], used: &mut usize) -> usize
    ensures { (result ≡ fresh_number w h buffer.old) × (buffer.new ≡ fresh_bytes w h buffer.old) ×
        (used.new ≡ fresh_used w h buffer.old used.old) }
{
    number(&fresh_in(w, h, buffer, used))
}

// Takes the step of a change. It is a call of its own, so that the tables of a split do not stand on the stack while the file is read.
#[inline(never)]
fn step_on<F: FnOnce(&mut Opened) -> Result<(), Refusal>>(
    map: &mut Opened,
    step: F,
) -> Result<(), Refusal>
    requires { F.IsAlwaysCallable step }
    ensures { FnOnceReturnsAtMut F.FnOnce step map.old result map.new }
{
    step(map)
}

// A change of the map in the buffer by a step, which does what a call does.
fn change_in<F: FnOnce(&mut Opened) -> Result<(), Refusal>>(
    buffer: &mut [u8],
    used: &mut usize,
    step: F,
) -> Result<(), Refusal>
    requires { F.IsAlwaysCallable step }
    ensures { (call : Map → Changed) → Does (FnOnceReturnsAtMut F.FnOnce step) call →
        (number_in result ≡ change_number call buffer.old used.old) ×
        (buffer.new ≡ change_bytes call buffer.old used.old) ×
        (used.new ≡ change_used call buffer.old used.old) }
{
    let mut map = read_lent(buffer, *used)?;
    step_on(&mut map, step)?;
    put(&map, buffer, used)
}

// No value is above 65,535: a larger number, as -1 is from C, would be set as another one.
fn set_in(map: &mut Opened, m: usize, n: usize, value: usize) -> Result<(), Refusal>
    ensures { changed_to map.new.map result ≡ set_wide map.old.map m n value }
{
    let most = 65535;
    if most < value {
        return Err(Refusal::OutOfRange);
    }
    map.set(m, n, value as u16)
}

pub fn pump_set(buffer: &mut [u8], used: &mut usize, m: usize, n: usize, value: usize) -> usize
    ensures { (result ≡ change_number (λ old. set_wide old m n value) buffer.old used.old) ×
        (buffer.new ≡ change_bytes (λ old. set_wide old m n value) buffer.old used.old) ×
        (used.new ≡ change_used (λ old. set_wide old m n value) buffer.old used.old) }
{
    number(&change_in(buffer, used, |map| set_in(map, m, n, value)))
}

pub fn pump_split(
    buffer: &mut [u8],
    used: &mut usize,
    direction: usize,
    position: usize,
    from: usize,
    to: usize,
    allowance: usize,
) -> usize
    ensures { (result ≡ change_number (λ old. split_within old (split_of direction position from to) allowance) buffer.old used.old) ×
        (buffer.new ≡ change_bytes (λ old. split_within old (split_of direction position from to) allowance) buffer.old used.old) ×
        (used.new ≡ change_used (λ old. split_within old (split_of direction position from to) allowance) buffer.old used.old) }
{
    let s = Split {
        direction,
        position,
        from,
        to,
    };
    number(&change_in(buffer, used, |map| map.split(s, allowance)))
}
