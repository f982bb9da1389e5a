// Knots are kept in bytes, since the last is 130, and calculated with as numbers.
ghost use Rattle.std.specs.Prelude.{◌≡◌, pos};
ghost use Rattle.std.proofs.Math.IntN.{pred_ℤ};

// A knot as document 01's coordinate: one less, and no conversion of a type.
pub fn coordinate(k: u8) -> i64
    ensures { result ≡ pred_ℤ (pos k) }
{
    i64::from(k) - 1
}
