// Answers as text, gathered in memory that goes to standard output when it is full, and when whoever waits is to see it.
use crate::ROOM;
use itoa::Buffer;
use maps::{Refusal, Shape, Weight, Weights};
use std::io;
use std::io::Print;
use std::rt::Stdout;

// So many bytes of a line are put at once.
const PART: usize = 256;

// What waits for standard output, the first `at` bytes; and the last write that failed. It allocates nothing, so it is an array and a count.
#[derive(Drop)]
pub struct Out {
    to: Stdout,
    bytes: [u8; ROOM],
    at: usize,
    failed: io::Result<()>,
}

impl Out {
    pub fn new(to: Stdout) -> Out {
        Out {
            to,
            bytes: [0u8; ROOM],
            at: 0,
            failed: Ok(()),
        }
    }

    // Writes what waits.
    pub fn flush(&mut self) {
        let n = self.at;
        self.at = 0;
        if n <= self.bytes.len() {
            if let Err(e) = self.to.write_all(&self.bytes[..n]) {
                self.failed = Err(e);
            }
        }
    }

    pub fn has_failed(&self) -> bool {
        self.failed.is_err()
    }

    // Whether all was written.
    pub fn end(self) -> io::Result<()> {
        self.failed
    }

    fn byte(&mut self, x: u8) {
        if self.bytes.len() <= self.at {
            self.flush();
        }
        let n = self.at;
        if n < self.bytes.len() {
            self.bytes[n] = x;
            self.at = n + 1;
        }
    }

    pub fn text(&mut self, bytes: &[u8]) {
        for x in bytes {
            self.byte(*x);
        }
    }

    // Shows a line again, which may be long: parts that fit are put whole, and one that no longer fits byte by byte, so that each write brings all of it.
    pub fn echo(&mut self, line: &[u8]) {
        for part in line.chunks(PART) {
            let end = self.at.saturating_add(part.len());
            match self.bytes.get_mut(self.at..end) {
                Some(room) => {
                    room.copy_from_slice(part);
                    self.at = end;
                }
                None => self.text(part),
            }
        }
    }

    // A blank and a number.
    pub fn number(&mut self, n: usize) {
        let mut digits = Buffer::new();
        self.byte(b' ');
        self.text(digits.format(n).as_bytes());
    }

    // The number of an answer, 0 for a yes.
    pub fn told<T>(&mut self, answer: &Result<T, Refusal>) {
        self.text(b" =");
        self.number(match answer {
            Ok(_) => 0,
            Err(refusal) => refusal.number(),
        });
    }

    // A blank and a coordinate: −1, or a number from 0 on.
    fn coordinate(&mut self, n: i64) {
        match usize::try_from(n) {
            Ok(n) => self.number(n),
            Err(_) => self.text(b" -1"),
        }
    }

    pub fn shape(&mut self, s: &Shape) {
        for n in [s.l, s.m, s.r, s.b, s.n, s.t] {
            self.coordinate(n);
        }
    }

    fn weight(&mut self, w: &Weight) {
        self.shape(&w.blend);
        self.number(w.numerator);
        self.number(w.denominator);
    }

    pub fn four(&mut self, weights: &Weights) {
        for (i, w) in weights.entries.iter().enumerate() {
            if 0 < i {
                self.text(b" ;");
            }
            self.weight(w);
        }
    }

    // A byte as two hexadecimal digits.
    pub fn hex(&mut self, x: u8) {
        let digits = b"0123456789abcdef";
        self.byte(digits[usize::from(x / 16)]);
        self.byte(digits[usize::from(x % 16)]);
    }
}
