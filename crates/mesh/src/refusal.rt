// Why a call says no: document 01's numbered answers, "When a call says no, in checking order".
ghost use Rattle.std.specs.Prelude.{◌≡◌};
ghost use Rattle.mesh.specs.Refusals.{number_of};

use std::error::Error;
use std::fmt;

#[derive(Clone, Copy, Debug, PartialEq, Eq)]
pub enum Refusal {
    Side = 1,
    BadRecord,
    OutOfRange,
    Full,
    Shared,
    OpenEnd,
    CutsNothing,
    Unsound,
    NoAnchor,
    Outside,
    NoFile,
    ShortBuffer,
    NoPair,
}

impl Refusal {
    // Its number, as the calls from C give it.
    pub fn number(self) -> usize
        ensures { result ≡ number_of self }
    {
        self as usize
    }
}

impl fmt::Display for Refusal {
    fn fmt<W: fmt::Write>(&self, f: &mut fmt::Formatter<W>) -> fmt::Result {
        f.write_str(match self {
            Refusal::Side => "a side is outside 1 to 128",
            Refusal::BadRecord => "the record is not good",
            Refusal::OutOfRange => "a direction, position, end, allowance or value is out of range",
            Refusal::Full => "the map has 60 splits",
            Refusal::Shared => "the split shares more than one point with a line at its position",
            Refusal::OpenEnd => "an end of the split lies on no crossing line",
            Refusal::CutsNothing => "the split would cut no blend",
            Refusal::Unsound => "no line within the allowance leaves a sound map",
            Refusal::NoAnchor => "no blend has the anchor or the table place",
            Refusal::Outside => "the point, the row or the column lies outside the domain",
            Refusal::NoFile => "the bytes are not a map file, or no whole record is at the place",
            Refusal::ShortBuffer => "the buffer is shorter than what is to be written",
            Refusal::NoPair =>
                "no neighbours have the wanted flow between them, or it is out of range",
        })
    }
}

impl Error for Refusal {}

#[cfg(test)]
mod tests {
    use super::*;
    use std::test::Fail;

    #[test]
    fn a_refusal_prints_its_reason(rt: HostRuntime) -> Result<(), Fail> {
        let text = format!(in rt.alloc(); "{}", Refusal::Full)?;
        assert_eq!(rt; text.as_str(), "the map has 60 splits");
        Ok(())
    }
}
