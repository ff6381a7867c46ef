ghost use Rattle.std.specs.Prelude.{◌≡◌, ◌%◌, sum};
ghost use Rattle.framing.specs.Stored.{checksum_from, sealed_from};

// How many bytes are added up at a time. A sum over a fixed number of bytes is
// compiled to few instructions for 16 bytes each; with 64 it took the least time.
const BLOCK: usize = 64;

// The bytes of a part added up, modulo 65,536.
fn part_sum(bytes: &[u8]) -> u16
    ensures { result ≡ sum bytes.now % 65536 }
{
    bytes
        .iter()
        .fold(0u16, |total, b| total.wrapping_add(u16::from(*b)))
}

// All bytes added up, modulo 65,536: block by block, and what is left behind the
// last block.
fn wrapping_sum(bytes: &[u8]) -> u16
    ensures { result ≡ sum bytes.now % 65536 }
{
    let (blocks, rest) = bytes.as_chunks::<BLOCK>();
    blocks
        .iter()
        .fold(0u16, |total, block| total.wrapping_add(part_sum(block)))
        .wrapping_add(part_sum(rest))
}

// A 16-bit checksum: a start, and every byte added to it, modulo 65,536. Frames
// of several formats are sealed by one, each from a start of its own.
pub fn checksum_from(start: u16, bytes: &[u8]) -> u16
    ensures { result ≡ checksum_from start bytes.now }
{
    start.wrapping_add(wrapping_sum(bytes))
}

// Whether the last two bytes hold the checksum of all before them, low byte
// first. Fewer than two bytes hold none.
pub fn is_sealed(start: u16, bytes: &[u8]) -> bool
    ensures { result ≡ sealed_from start bytes.now }
{
    let Some((before, seal)) = bytes.split_last_chunk() else {
        return false;
    };
    checksum_from(start, before) == u16::from_le_bytes(*seal)
}
