// A blend by the knots of its anchor and of its support.
ghost use Rattle.std.specs.Prelude.{◌≡◌, ◌<◌};
ghost use Rattle.mesh.specs.Blends.{place, crossed, along};
ghost use Rattle.mesh.specs.Bytes.{packed, unpacked};
ghost use Rattle.mesh.specs.Carried.{noted, unnoted};

use crate::{Blend, Direction};
use axis::Triple;

impl Blend {
    // The place of the anchor in a square table, a place for each pair of knots.
    pub fn place(self) -> usize
        ensures { result ≡ place self }
    {
        usize::from(self.across.m) * 131 + usize::from(self.up.m)
    }

    // The triple that lines of the direction cut, and the one that they must cover.
    pub(crate) fn crossed(self, d: Direction) -> Triple
        ensures { result ≡ crossed d self }
    {
        match d {
            Direction::Upright => self.across,
            Direction::Level => self.up,
        }
    }

    pub(crate) fn along(self, d: Direction) -> Triple
        ensures { result ≡ along d self }
    {
        self.crossed(d.other())
    }

    // The support in one number.
    pub(crate) fn pack(self) -> u32
        ensures { result ≡ packed self }
    {
        u32::from_be_bytes([self.across.l, self.across.r, self.up.l, self.up.r])
    }

    // The blend with its anchor at knots (m, n) and this support.
    #[tactic(auto, unfolding(crate::specs::Bytes::unpacked))]
    pub(crate) fn unpack(m: usize, n: usize, c: usize) -> Blend
        requires { (m < 256) × (n < 256) }
        ensures { result ≡ unpacked m n c }
    {
        Blend {
            across: Triple {
                l: (c / 16777216 % 256) as u8,
                m: m as u8,
                r: (c / 65536 % 256) as u8,
            },
            up: Triple {
                l: (c / 256 % 256) as u8,
                m: n as u8,
                r: (c % 256) as u8,
            },
        }
    }

    // A note of the blend, and the blend that was noted.
    pub(crate) fn to_note(self) -> usize
        ensures { result ≡ noted self }
    {
        self.pack() as usize * 65536 + (usize::from(self.across.m) * 256 + usize::from(self.up.m))
    }

    #[tactic(auto, unfolding(crate::specs::Carried::unnoted))]
    pub(crate) fn from_note(c: usize) -> Blend
        ensures { result ≡ unnoted c }
    {
        Blend::unpack(c / 256 % 256, c % 256, c / 65536)
    }
}
