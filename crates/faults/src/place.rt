ghost use Rattle.std.specs.Prelude.{◌≡◌};
ghost use Rattle.faults.specs.Places.{numbered};

// A place in a run of bytes, counted from 0, as the tables of a format store it.
#[derive(Clone, Copy, PartialEq, Eq, Debug)]
pub struct Offset(pub u16);

// A place in a run of bytes, counted from 1, as people and faults name it.
// 0 names no byte.
#[derive(Clone, Copy, PartialEq, Eq, Debug)]
pub struct ByteNumber(pub u32);

impl ByteNumber {
    // The place of a fault whose rule names no byte. It is no Option: by the
    // project's rule a place is a number that is told, and 0 there.
    pub const NONE: ByteNumber = ByteNumber(0);
}

impl From<Offset> for ByteNumber {
    ghost from_gives = { λ o r. r ≡ numbered o };

    fn from(o: Offset) -> ByteNumber {
        ByteNumber(o.0 as u32 + 1)
    }
}

// An offset as a place in the bytes at hand.
impl From<Offset> for usize {
    ghost from_gives = { λ o r. r ≡ o.0 };

    fn from(o: Offset) -> usize {
        usize::from(o.0)
    }
}
