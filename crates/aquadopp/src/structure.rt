ghost use Rattle.std.specs.Prelude.{◌≡◌, ◌≤◌, length, IfOk, OnOk};
ghost use Rattle.faults.specs.Questions.{answered, first_fault};
ghost use Rattle.aquadopp.specs.Structures.{agrees, head_told, structure_sum, is_sealed, questions, opened, OpeningLaws};

use faults::frame::FrameFault;
use framing::checksum;

// The bytes of the head: the sync byte, the id and the size.
pub(crate) const HEAD_SIZE: usize = 4;

// The first byte of every structure.
pub const SYNC: u8 = 0xa5;

// What the checksum starts from.
const CHECKSUM_START: u16 = 0xb58c;

// Whether structures of this id have this many 16-bit words.
fn is_size_of(words: u16, id: u8) -> bool
    ensures { result ≡ agrees id words }
{
    match id {
        0x01 | 0x80 => words == 21,
        0x06 => words == 18,
        _ => false,
    }
}

// The size in 16-bit words that the head tells, where sync, id and size are
// right.
pub(crate) fn told_words(bytes: &[u8]) -> Result<u16, FrameFault>
    ensures value { result ≡ head_told bytes.now }
    ensures range { IfOk result (λ n. (1 ≤ n) × (4 ≤ length bytes.now)) }
{
    if bytes.len() < HEAD_SIZE {
        return Err(FrameFault::NoStructure);
    }
    if bytes[0] != SYNC {
        return Err(FrameFault::Sync);
    }
    let words = u16::from_le_bytes([bytes[2], bytes[3]]);
    if !is_size_of(words, bytes[1]) {
        return Err(FrameFault::StructureSize);
    }
    Ok(words)
}

// The checksum of all bytes before it. It stays beside the other maker's, one
// line over the sum of both, so that no caller has to know what it starts from.
pub fn checksum(bytes: &[u8]) -> u16
    ensures { result ≡ structure_sum bytes.now }
{
    checksum::checksum_from(CHECKSUM_START, bytes)
}

// Whether the last two bytes are the checksum of all before them. By `checksum`,
// so that what opening and judging ask for is just what that call tells.
#[tactic(auto, unfolding(crate::specs::Structures::is_sealed))]
fn is_sealed(bytes: &[u8]) -> bool
    requires { 2 ≤ length bytes.now }
    ensures { result ≡ is_sealed bytes.now }
{
    let end = bytes.len() - 2;
    checksum(&bytes[..end]) == u16::from_le_bytes([bytes[end], bytes[end + 1]])
}

// Asks every question of a structure.
#[tactic(auto, using(crate::specs::Opened::opening_laws))]
pub(crate) fn check(bytes: &[u8]) -> Result<(), FrameFault>
    ensures value { result ≡ answered (first_fault (questions bytes.now)) tt }
    ensures laws { OpeningLaws bytes.now }
    ensures room { OnOk result (4 ≤ length bytes.now) }
{
    let words = told_words(bytes)?;
    if bytes.len() != 2 * usize::from(words) {
        return Err(FrameFault::StructureLength);
    }
    if !is_sealed(bytes) {
        return Err(FrameFault::StructureChecksum);
    }
    Ok(())
}

// Opens a structure: its id, or the fault of the first question that is
// answered by no. By the project's rule the id is told as the byte that it is.
pub fn open(bytes: &[u8]) -> Result<u8, FrameFault>
    ensures value { result ≡ opened bytes.now }
    ensures laws { OpeningLaws bytes.now }
{
    check(bytes)?;
    Ok(bytes[1])
}
