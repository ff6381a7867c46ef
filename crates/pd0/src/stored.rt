ghost use Rattle.std.specs.Prelude.{◌≡◌, ◌+◌, ◌<◌, length, slice_index};
ghost use Rattle.framing.specs.Stored.{word, checksum_from};

use faults::place::Offset;
use framing::checksum::checksum_from;

// The byte at an offset, 0 past the end.
pub(crate) fn byte(bytes: &[u8], at: usize) -> u8
    ensures { result ≡ slice_index bytes.now at }
{
    bytes.get(at).copied().unwrap_or(0)
}

// The 16-bit number at an offset, low byte first; a byte past the end counts
// as 0. It stays beside `word_inside` by the project's rule: a new place for an
// ensemble, which has no byte, answers 0.
pub(crate) fn word(bytes: &[u8], at: Offset) -> u16
    ensures { result ≡ word bytes.now at.0 }
{
    let at = usize::from(at);
    u16::from_le_bytes([byte(bytes, at), byte(bytes, at + 1)])
}

// The 16-bit number at an offset where both of its bytes are there, so that
// nothing has to be tested.
pub(crate) fn word_inside(bytes: &[u8], at: usize) -> u16
    requires { at + 1 < length bytes.now }
    ensures { result ≡ word bytes.now at }
{
    u16::from_le_bytes([bytes[at], bytes[at + 1]])
}

// The checksum of an ensemble's counted bytes. It stays beside the other maker's,
// one line over the sum of both, so that no caller has to know the start.
pub fn checksum(bytes: &[u8]) -> u16
    ensures { result ≡ checksum_from 0 bytes.now }
{
    checksum_from(0, bytes)
}
