// Reads a map file on standard input and prints its table: the number of blends, then a line for
// each; or `refused 11`. A line on standard error helps whoever meant something else.
#![tactic(auto)]

ghost use Rattle.std.specs.Prelude.{◌≤◌, length, IfOk};

use files::LARGEST_FILE;
use files::listing::{LARGEST_TEXT, list};
use maps::Refusal;
use std::env::{Env, FillError};
use std::io;
use std::io::Read;

fn refuse(rt: &HostRuntime) -> io::Result<()> {
    rt.write_all(b"refused 11\n")?;
    rt.eprintln("table: standard input is no map file; use: table < FILE")
}

// Reads until the buffer is full or the input ends, and counts the bytes that each read brings.
fn read_full<R: Read>(input: &mut R, bytes: &mut [u8]) -> io::Result<usize>
    ensures { IfOk result (λ n. n ≤ length bytes.new) }
{
    let mut n = 0;
    while n < bytes.len() {
        let got = input.read(&mut bytes[n..])?;
        if got == 0 {
            break;
        }
        n += got;
    }
    Ok(n)
}

fn print_table(rt: &HostRuntime) -> io::Result<()> {
    // One byte more than the longest file, so that a longer input is no file.
    let mut input = [0u8; LARGEST_FILE + 1];
    let n = read_full(&mut rt.stdin(), &mut input)?;
    let mut text = [0u8; LARGEST_TEXT];
    match list(&input[..n], &mut text) {
        Ok(length) => rt.write_all(&text[..length]),
        Err(Refusal::NoFile) => refuse(rt),
        // No table is longer than the text that is lent.
        Err(_) => Ok(()),
    }
}

// Whether there is an argument behind the program's name.
fn has_argument(rt: &HostRuntime) -> bool {
    !matches!(rt.arg(1, &mut [0u8; 1]), Err(FillError::NotPresent))
}

fn main(rt: HostRuntime) -> io::Result<()> {
    if has_argument(&rt) {
        return rt.eprintln("table: no arguments are taken; use: table < FILE");
    }
    print_table(&rt)
}
