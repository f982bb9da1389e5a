// Reads lists of calls on standard input, a line each, and prints each line with ` = ` and its answer.
#![tactic(auto)]

mod answers;
mod show;
mod text;

ghost use Rattle.std.specs.Prelude.{◌≤◌, length};

use crate::show::Out;
use maps::opened::Opened;
use std::io;
use std::io::Read;
use std::rt::Stdin;

// The longest call, `same ` and the largest file in hexadecimal, has 26,045 bytes (zeros before a
// number may make any call longer).
const ROOM: usize = 32768;

// What goes on from one read to the next: the map; how many bytes at the front of the buffer start a line; and whether they follow on a start that was
// too long to keep, which no count tells.
#[derive(Drop)]
struct State {
    map: Opened,
    held: usize,
    long: bool,
}

impl State {
    // Answers a line, of which the end alone may be left.
    fn line(&mut self, bytes: &[u8], out: &mut Out) {
        if self.long {
            answers::answer_rest(bytes, out);
        } else {
            answers::answer(&mut self.map, bytes, out);
        }
        self.long = false;
        out.text(b"\n");
    }

    // Answers each whole line, and tells how many bytes these are.
    fn whole_lines(&mut self, input: &[u8], out: &mut Out) -> usize
        ensures { result ≤ length input.now }
    {
        // What is left behind the last line end is held, so this is no walk over all parts.
        let mut rest = input;
        while let Some(end) = rest.iter().position(|byte| *byte == b'\n') {
            self.line(&rest[..end], out);
            rest = &rest[end + 1..];
        }
        input.len() - rest.len()
    }

    // A line that fills the buffer is no call: its bytes are shown and given up, and it is answered with `?` where it ends.
    fn make_room(&mut self, input: &[u8], out: &mut Out)
        ensures { self.new.held ≤ length input.now }
    {
        if input.len() <= self.held {
            out.echo(input);
            self.held = 0;
            self.long = true;
        }
    }

    // Reads once and answers the lines that are whole; false where the input has ended. A read that fails leaves none of the held bytes: their line may
    // be cut short.
    fn turn(&mut self, from: &mut Stdin, input: &mut [u8], out: &mut Out) -> bool {
        self.make_room(input, out);
        match from.read(&mut input[self.held..]) {
            Ok(0) => false,
            Ok(got) => {
                let to = self.held + got;
                let answered = self.whole_lines(&input[..to], out);
                input[..to].rotate_left(answered);
                self.held = to - answered;
                true
            }
            Err(_) => {
                self.held = 0;
                false
            }
        }
    }

    // Answers the last line, where its line end is missing.
    fn last_line(&mut self, input: &[u8], out: &mut Out) {
        if 0 < self.held || self.long {
            if let Some(bytes) = input.get(..self.held) {
                self.line(bytes, out);
            }
        }
    }
}

// A proved loop has to end, and nothing says that an input does: the turns count up to a number that no run reaches. What a turn answers is written
// before the next one reads, for whoever waits for it; where that fails, nobody does.
fn run(from: &mut Stdin, input: &mut [u8], out: &mut Out) {
    let mut state = State {
        map: Opened::smallest(),
        held: 0,
        long: false,
    };
    for _ in 0..u64::MAX {
        let goes_on = state.turn(from, input, out);
        out.flush();
        if !goes_on || out.has_failed() {
            break;
        }
    }
    // The line that is held may go on behind what was read.
    if !out.has_failed() {
        state.last_line(input, out);
        out.flush();
    }
}

fn main(rt: HostRuntime) -> io::Result<()> {
    let mut input = [0u8; ROOM];
    let mut out = Out::new(rt.stdout());
    run(&mut rt.stdin(), &mut input, &mut out);
    out.end()
}
