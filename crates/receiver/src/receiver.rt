ghost use Rattle.std.specs.Prelude.{◌+◌, ◌≤◌};
ghost use Rattle.receiver.specs.State.{capacity, room, length_of};

pub mod feed;
pub mod find;
pub mod frame;
pub mod start;

// The most bytes that a receiver holds at a time.
pub const CAPACITY: usize = 4352;

// The places of the buffer. With twice the capacity the held bytes are moved
// to the front only after as many bytes or more have left it, so that moving
// costs constant work for each byte, however the bytes are fed.
const ROOM: usize = 2 * CAPACITY;

// Takes bytes, finds frames among them, and hands these out. The held bytes
// stand from `start` up to `end`: in fixed memory, and as one slice, where a
// ring or a `VecDeque` may hold them in two parts, and the latter allocates.
#[derive(Drop)]
pub struct Receiver {
    bytes: [u8; ROOM],
    start: usize,
    end: usize,
    // the length of the found frame, which stands at the front
    found: Option<usize>,
    // beside `found` and no case of an enum with it: by the project's rule one
    // match in find acts on the two and the verdict together
    ended: bool,
    ghost ordered: { start ≤ end },
    ghost inside: { end ≤ room },
    ghost few: { end ≤ start + capacity },
    ghost whole: { start + length_of found ≤ end },
}
