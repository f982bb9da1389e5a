// The table of a map file as text: what the table program prints.
ghost use Rattle.std.specs.Prelude.{◌≡◌, [], ◌∷◌, ◌≤◌, leb, length};
ghost use Rattle.files.specs.Inner.{Puts, Room, Writes, told, text_in};
ghost use Rattle.files.specs.Listing.{digits, coordinate, spaced, number_line, knots, value_line, line, text_written, text_after};
ghost use Rattle.files.specs.Told.{written_as};

use crate::entries::Entry;
use crate::read_opened;
use axis::Triple;
use maps::Refusal;
use maps::opened::Opened;

// This many bytes hold every text, and this many every line.
pub const LARGEST_TEXT: usize = 65536;

const LONGEST_LINE: usize = 46;

// Lent bytes, and where the next byte of a text goes.
#[derive(Drop)]
struct Text<'a> {
    out: &'a mut [u8],
    at: usize,
}

impl Text<'_> {
    fn byte(&mut self, byte: u8)
        requires { Room self.old (byte ∷ []) }
        ensures { Writes self.old (byte ∷ []) self.new }
    {
        self.out[self.at] = byte;
        self.at += 1;
    }

    // A number in base ten.
    fn digits(&mut self, n: usize)
        requires { Room self.old (digits n) }
        ensures { Writes self.old (digits n) self.new }
    {
        if 10 <= n {
            self.digits(n / 10);
        }
        self.byte(b'0' + (n % 10) as u8);
    }

    // A number and the end of its line.
    fn number_line(&mut self, n: usize)
        requires { Room self.old (number_line n) }
        ensures { Writes self.old (number_line n) self.new }
    {
        self.digits(n);
        self.byte(b'\n');
    }

    // The coordinate of a knot.
    #[tactic(auto, using(crate::proofs::Texts::outer_coordinate, crate::proofs::Texts::inner_coordinate))]
    fn coordinate(&mut self, knot: u8)
        requires { Room self.old (coordinate knot) }
        ensures { Writes self.old (coordinate knot) self.new }
    {
        if knot == 0 {
            self.byte(b'-');
            self.byte(b'1');
            return;
        }
        self.digits(usize::from(knot - 1));
    }

    // The coordinate of a knot and a blank.
    fn spaced(&mut self, knot: u8)
        requires { Room self.old (spaced knot) }
        ensures { Writes self.old (spaced knot) self.new }
    {
        self.coordinate(knot);
        self.byte(b' ');
    }

    // The coordinates of a triple, a blank after each.
    #[tactic(auto, unfolding(crate::specs::Listing::knots))]
    fn knots(&mut self, triple: Triple)
        requires { Room self.old (knots triple) }
        ensures { Writes self.old (knots triple) self.new }
    {
        self.spaced(triple.l);
        self.spaced(triple.m);
        self.spaced(triple.r);
    }

    // A value, its mark and the end of their line.
    #[tactic(auto, unfolding(crate::specs::Listing::value_line))]
    fn value_line(&mut self, value: usize, mark: usize)
        requires { Room self.old (value_line value mark) }
        ensures { Writes self.old (value_line value mark) self.new }
    {
        self.digits(value);
        self.byte(b' ');
        self.number_line(mark);
    }

    // The line of a table entry.
    #[tactic(auto, unfolding(crate::specs::Listing::line))]
    fn line(&mut self, entry: Entry)
        requires { Room self.old (line (told entry)) }
        ensures { Writes self.old (line (told entry)) self.new }
    {
        self.knots(entry.blend.across);
        self.knots(entry.blend.up);
        self.value_line(usize::from(entry.value), usize::from(entry.mark));
    }

    // The number of an opened map's blends, then a line for each.
    fn table(&mut self, o: &Opened)
        requires { Room self.old (text_in o.now) }
        ensures { Writes self.old (text_in o.now) self.new }
    {
        self.number_line(o.table.count);
        for i in 0..o.table.count {
            self.line(Entry::at(o, i));
        }
    }
}

// How many bytes the line of a table entry has: it is put into bytes of its own.
fn line_size(entry: Entry) -> usize
    ensures { result ≡ length (line (told entry)) }
{
    let mut bytes = [0u8; LONGEST_LINE];
    let mut text = Text {
        out: &mut bytes,
        at: 0,
    };
    text.line(entry);
    text.at
}

// How many bytes the text of an opened map has.
fn text_size(o: &Opened) -> usize
    ensures { result ≡ length (text_in o.now) }
{
    let mut bytes = [0u8; LONGEST_LINE];
    let mut text = Text {
        out: &mut bytes,
        at: 0,
    };
    text.number_line(o.table.count);
    let mut size = text.at;
    for i in 0..o.table.count {
        size += line_size(Entry::at(o, i));
    }
    size
}

// Whether so many bytes hold the text of an opened map. It is measured only where they may be too few.
fn fits(o: &Opened, room: usize) -> bool
    ensures { result ≡ leb (length (text_in o.now)) room }
{
    let enough = LARGEST_TEXT;
    enough <= room || text_size(o) <= room
}

// Puts the text of an opened map in front of lent bytes, and tells how many it has.
fn put_table(out: &mut [u8], o: &Opened) -> usize
    requires { length (text_in o.now) ≤ length out.old }
    ensures { Puts out.old 0 (text_in o.now) out.new result }
{
    let mut text = Text { out, at: 0 };
    text.table(o);
    text.at
}

// Writes the table of a map file as text into a lent buffer, and tells how many bytes it has: refused with 11 or 12.
pub fn list(bytes: &[u8], out: &mut [u8]) -> Result<usize, Refusal>
    ensures { (written_as result ≡ text_written bytes.now out.old) × (out.new ≡ text_after bytes.now out.old) }
{
    let o = read_opened(bytes)?;
    if !fits(&o, out.len()) {
        return Err(Refusal::ShortBuffer);
    }
    Ok(put_table(out, &o))
}
