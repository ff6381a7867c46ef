// Verdicts on short runs, by framings that stand over others too.
ghost use Rattle.std.specs.Prelude.{◌-◌, ◌^◌};
ghost use Rattle.framing.specs.declared.verdict.Verdict.TheVariants.{Short};
ghost use Rattle.std.proofs.Common.{rules};

use aquadopp::judging::Aquadopp;
use aquadopp::structure;
use framing::checksum::is_sealed;
use framing::framing::Framing;
use framing::pair::Pair;
use framing::stamped::Stamped;
use framing::verdict::Verdict;
use pd0::judging::Pd0;

// The small structure: id 06, eighteen words, thirty zero bytes and the
// checksum.
pub(crate) fn small_structure() -> [u8; 36] {
    let mut bytes = [0u8; 36];
    bytes[0] = 0xa5;
    bytes[1] = 0x06;
    bytes[2] = 0x12;
    bytes[34] = 0x49;
    bytes[35] = 0xb6;
    bytes
}

#[test]
fn small_structure_opens(rt: HostRuntime) {
    let mut bytes = small_structure();
    assert_eq!(rt; structure::open(&bytes), Ok(0x06));
    assert_eq!(rt; Aquadopp.judge(&bytes), Verdict::Sound(36));
    assert_eq!(rt; Aquadopp.judge(&bytes[0..35]), Verdict::Short(36));
    bytes[35] = 0xb7;
    assert_eq!(rt; Aquadopp.judge(&bytes), Verdict::Unfit);
}

#[test]
fn sealed_structure(rt: HostRuntime) {
    let bytes = small_structure();
    assert!(rt; is_sealed(0xb58c, &bytes));
    assert!(rt; !is_sealed(0, &bytes), "another start");
    assert!(rt; !is_sealed(0xb58c, &bytes[..35]), "a byte less");
    assert!(rt; !is_sealed(0xb58c, &bytes[..1]), "one byte");
}

#[test]
fn stamped_structure(rt: HostRuntime) {
    let mut bytes = [0u8; 45];
    bytes[0] = 0x4c;
    bytes[1] = 0x4f;
    bytes[2] = 0x47;
    bytes[3] = 1;
    bytes[9..45].copy_from_slice(&small_structure());
    let stamped = Stamped { below: Aquadopp };
    assert_eq!(rt; stamped.judge(&bytes), Verdict::Sound(45));
    assert_eq!(rt; stamped.judge(&bytes[0..8]), Verdict::Short(9));
    assert_eq!(rt; stamped.judge(&bytes[0..9]), Verdict::Short(13));
    bytes[3] = 2;
    assert_eq!(rt; stamped.judge(&bytes), Verdict::Unfit, "another version");
}

#[test]
fn pair_of_both(rt: HostRuntime) {
    let both = Pair {
        first: Pd0,
        second: Aquadopp,
    };
    assert_eq!(rt; both.judge(&[0xa5, 0x06, 0x12, 0x00]), Verdict::Short(6));
    assert_eq!(rt; both.judge(&small_structure()), Verdict::Sound(36));
    assert_eq!(rt; both.longest(), 4096);
}

#[test]
fn stamps_of_stamps(rt: HostRuntime) {
    let below = Pair {
        first: Aquadopp,
        second: Pd0,
    };
    let deep = Stamped {
        below: Stamped { below },
    };
    assert_eq!(rt; deep.longest(), 4114);
    assert_eq!(rt;
        deep.judge(&[0x4c, 0x4f, 0x47, 1, 0, 9, 9, 9, 9]),
        Verdict::Short(18)
    );
}

// A framing that waits for more bytes than can be counted on.
#[derive(Clone, Copy)]
struct Endless;

impl Framing for Endless {
    ghost judged = { λ _ _. Short (2 ^ 64 - 1) };

    ghost reach = { λ _. 2 ^ 64 - 1 };

    ghost lawful = { Prim.search rules };

    fn judge(&self, _run: &[u8]) -> Verdict {
        Verdict::Short(usize::MAX)
    }

    fn longest(&self) -> usize {
        usize::MAX
    }
}

#[test]
fn stamp_over_the_largest(rt: HostRuntime) {
    let stamped = Stamped { below: Endless };
    assert_eq!(rt; stamped.longest(), usize::MAX);
    assert_eq!(rt;
        stamped.judge(&[0x4c, 0x4f, 0x47, 1, 0, 9, 9, 9, 9]),
        Verdict::Short(usize::MAX)
    );
}
