// Cutting: an upright cut hands its halves to the level cuts, a level cut hands its halves back, until neither cuts. They are two functions that call each
// other, as document 01 asks. Lines are read while places are kept, so both take them apart and not the drawing whole.
ghost use Rattle.std.specs.Prelude.{◌≡◌, true, cond, ℕ, ◌+◌, ◌-◌, ◌≤◌};
ghost use Rattle.axis.specs.Range.{every};
ghost use Rattle.axis.specs.Triple.{Rises};
ghost use Rattle.mesh.specs.declared.Direction.TheVariants.{Upright as upright, Level as level};
ghost use Rattle.axis.specs.Nearest.{nearest, any_line};
ghost use Rattle.mesh.specs.Blends.{cutter, leaves, size};
ghost use Rattle.mesh.specs.Sound.{Proper};
ghost use Rattle.mesh.specs.Bytes.{Rows, step_on, bytes_mesh, keep, keep_all};
ghost use Rattle.mesh.specs.Carried.{RowsOf};

use crate::Blend;
use crate::steps::covers;
use axis::{Side, Triple};

// The line that cuts a triple first, if any covers the n steps from knot b on: the nearest below the middle, else the nearest above. The two
// ranges run opposite ways, so one loop over both would be no plainer.
fn first_line(steps: &[u8], x: Triple, b: u8, n: u8) -> Option<u8>
    requires { Rows x.r steps.now × Rises x × (b + n ≤ 131) }
    ensures { result ≡ any_line (nearest (λ z. every b n (step_on steps.now z)) x) }
{
    for z in (x.l + 1..x.m).rev() {
        if covers(steps, z, b, n) {
            return Some(z);
        }
    }
    for z in x.m + 1..x.r {
        if covers(steps, z, b, n) {
            return Some(z);
        }
    }
    None
}

// Keeps a blend at its anchor's place. The places alone, since a cut reads the lines meanwhile.
pub(crate) fn keep_blend(places: &mut [u32], x: Blend)
    requires { Rows (x.across.m + 1) places.old × Proper x }
    ensures { places.new ≡ keep places.old x }
{
    let at = x.place();
    places[at] = x.pack();
}

// Cuts a blend by uprights and hands the halves to the level cuts. `tried` tells that no level cuts the blend, which nothing
// else holds.
#[cycle(cut_across_cut_up)]
pub(crate) fn cut_across(uprights: &[u8], levels: &[u8], x: Blend, tried: bool, places: &mut [u32])
    requires { RowsOf uprights.now levels.now places.old x × Proper x ×
        (tried ≡ true → cutter (bytes_mesh uprights.now levels.now) level x ≡ 0) }
    ensures { (f : ℕ) → size x ≤ f → places.new ≡
        keep_all places.old (leaves f (bytes_mesh uprights.now levels.now) (cond tried level upright) x) }
{
    let a = x.across;
    let u = x.up;
    match first_line(uprights, a, u.l, u.r - u.l) {
        Some(z) => {
            for side in [Side::Lower, Side::Upper] {
                let half = Blend {
                    across: a.half(side, z),
                    up: u,
                };
                cut_up(uprights, levels, half, false, places);
            }
        }
        None if tried => keep_blend(places, x),
        None => cut_up(uprights, levels, x, true, places),
    }
}

// Cuts a blend by levels and hands the halves back to the upright cuts. `tried` tells that no upright cuts the blend.
#[cycle(cut_across_cut_up)]
fn cut_up(uprights: &[u8], levels: &[u8], x: Blend, tried: bool, places: &mut [u32])
    requires { RowsOf uprights.now levels.now places.old x × Proper x ×
        (tried ≡ true → cutter (bytes_mesh uprights.now levels.now) upright x ≡ 0) }
    ensures { (f : ℕ) → size x ≤ f → places.new ≡
        keep_all places.old (leaves f (bytes_mesh uprights.now levels.now) (cond tried upright level) x) }
{
    let a = x.across;
    let u = x.up;
    match first_line(levels, u, a.l, a.r - a.l) {
        Some(z) => {
            for side in [Side::Lower, Side::Upper] {
                let half = Blend {
                    across: a,
                    up: u.half(side, z),
                };
                cut_across(uprights, levels, half, false, places);
            }
        }
        None if tried => keep_blend(places, x),
        None => cut_across(uprights, levels, x, true, places),
    }
}
