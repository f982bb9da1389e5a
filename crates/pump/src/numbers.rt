// The numbers that a call hands back.
ghost use Rattle.std.specs.Prelude.{◌≡◌, [], ◌∷◌, ◌++◌};
ghost use Rattle.files.specs.Told.{number_in};
ghost use Rattle.pump.specs.Border.{signed, shape_numbers};

use maps::{Refusal, Shape};

// 0 for a yes, else the number of the refusal.
pub(crate) fn number<T>(answer: &Result<T, Refusal>) -> usize
    ensures { result ≡ number_in answer.now }
{
    match answer {
        Ok(_) => 0,
        Err(refusal) => refusal.number(),
    }
}

// A coordinate as a 16-bit number, as c/pump.h lays out its structs.
fn signed_word(z: i64) -> usize
    ensures { result ≡ signed z }
{
    usize::try_from(z).unwrap_or(65535)
}

// A blend's coordinates and two numbers after them.
pub(crate) fn words_of(s: Shape, seventh: usize, eighth: usize) -> [usize; 8]
    ensures { result ≡ shape_numbers s ++ seventh ∷ eighth ∷ [] }
{
    let [l, m, r, b, n, t] = [s.l, s.m, s.r, s.b, s.n, s.t].map(signed_word);
    [l, m, r, b, n, t, seventh, eighth]
}
