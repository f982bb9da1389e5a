// One call: its line is taken apart, the library is asked, and the answer is shown. A line that is no call is answered with `?`. The map stays
// opened from call to call, so that no call replays its record.
use crate::show::Out;
use crate::text;
use crate::text::Call;
use files::LARGEST_FILE;
use maps::opened::Opened;
use maps::{Pairs, Refusal};
use mesh::{Lines, Split};

fn no_call(out: &mut Out) {
    out.text(b" = ?");
}

// A list starts on a fresh map; a side out of range is refused with 1.
fn history(map: &mut Opened, w: usize, h: usize, out: &mut Out) {
    *map = match Opened::fresh(w, h) {
        Ok(fresh) => fresh,
        refused => {
            out.told(&refused);
            Opened::smallest()
        }
    };
}

fn place(map: &Opened, i: usize, out: &mut Out) {
    let answer = map.place(i);
    out.told(&answer);
    if let Ok(entry) = answer {
        out.shape(&entry.blend);
        out.number(entry.value);
        out.number(entry.mark);
    }
}

fn reading(map: &Opened, u: usize, v: usize, out: &mut Out) {
    let answer = map.reading(u, v);
    out.told(&answer);
    if let Ok(litres) = answer {
        out.number(litres);
    }
}

fn weights(map: &Opened, u: usize, v: usize, out: &mut Out) {
    let answer = map.weights(u, v);
    out.told(&answer);
    if let Ok(four) = answer {
        out.four(&four);
    }
}

// Along a row, or up a column: the number, then how many pairs and the first.
fn pairs(answer: Result<Pairs, Refusal>, out: &mut Out) {
    out.told(&answer);
    if let Ok(pairs) = answer {
        out.number(pairs.count);
        out.number(pairs.first);
    }
}

// The ends of the last split, as kept in the record.
fn ends(lines: &Lines, out: &mut Out) {
    if let Some(last) = lines.count.checked_sub(1) {
        if let Some(s) = lines.splits.get(last) {
            out.number(s.from);
            out.number(s.to);
        }
    }
}

// A split's number, then its ends and the count of live blends.
fn split(map: &mut Opened, s: Split, allowance: usize, out: &mut Out) {
    let answer = map.split(s, allowance);
    out.told(&answer);
    if answer.is_ok() {
        ends(&map.map.lines, out);
        out.number(map.table.count);
    }
}

// Sameness with another map; a line whose bytes are no file is no call.
fn same(map: &Opened, digits: &[u8], out: &mut Out) {
    let mut buffer = [0u8; LARGEST_FILE];
    let other = text::unhex(digits, &mut buffer).and_then(|file| files::read_opened(file).ok());
    match other {
        Some(other) => {
            out.text(b" = 0");
            out.text(if map.same(&other) { b" yes" } else { b" no" });
        }
        None => no_call(out),
    }
}

// The bytes of the map's file, in hexadecimal.
fn file(map: &Opened, out: &mut Out) {
    let mut buffer = [0u8; LARGEST_FILE];
    let length = files::write_opened(map, &mut buffer).unwrap_or(0);
    out.text(b" = ");
    for x in buffer.iter().take(length) {
        out.hex(*x);
    }
}

// Answers one line; the map is then that for the next.
pub(crate) fn answer(map: &mut Opened, line: &[u8], out: &mut Out) {
    out.echo(line);
    match Call::parse(line) {
        Some(Call::History(w, h)) => history(map, w, h, out),
        Some(Call::Set(m, n, value)) => out.told(&map.set(m, n, value)),
        Some(Call::Split(s, allowance)) => split(map, s, allowance, out),
        Some(Call::Place(i)) => place(map, i, out),
        Some(Call::Reading(u, v)) => reading(map, u, v, out),
        Some(Call::Weights(u, v)) => weights(map, u, v, out),
        Some(Call::Row(v, wanted)) => pairs(map.row(v, wanted), out),
        Some(Call::Column(u, wanted)) => pairs(map.column(u, wanted), out),
        Some(Call::Same(digits)) => same(map, digits, out),
        Some(Call::File) => file(map, out),
        None => no_call(out),
    }
}

// Answers the end of a line whose start was too long to keep: no call is that long.
pub(crate) fn answer_rest(rest: &[u8], out: &mut Out) {
    out.echo(rest);
    no_call(out);
}
