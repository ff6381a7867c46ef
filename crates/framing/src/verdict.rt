// What a framing says of the bytes at hand: whether a frame begins there.
#[derive(Clone, Copy, PartialEq, Eq, Debug)]
pub enum Verdict {
    // A frame of this many bytes stands at the start.
    Sound(usize),
    // Too few bytes to tell: so many are wanted.
    Short(usize),
    // No frame starts here, and no further bytes will change that.
    Unfit,
}
