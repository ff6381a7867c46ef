ghost use Rattle.std.specs.Prelude.{◌≡◌, ℕ, Bool, List};
ghost use Rattle.framing.specs.Headed.{headed, told_by, HeadedLaws, SoundExactly};
ghost use Rattle.framing.specs.Headers.{lawful_by};
ghost use Rattle.framing.specs.declared.verdict.Verdict.{Verdict};

use crate::framing::Framing;
use crate::verdict::Verdict;

// A format whose frames begin with a header that tells how long they are. Each
// is a framing by the one judge below.
pub trait Headed {
    // the bytes of a header, and of the longest frame
    ghost HEADER_SIZE: { ℕ };

    ghost LONGEST: { ℕ };

    const HEADER_SIZE: usize;

    const LONGEST: usize;

    // whether the header of a run is right, and the size that it then tells
    ghost fit: { List ℕ → Bool };

    ghost size: { List ℕ → ℕ };

    // whether bytes are a frame, no more and no fewer, as an answer and as a fact
    ghost whole: { List ℕ → Bool };

    ghost IsFrame: { List ℕ → Type 0 };

    // the verdict on each run
    ghost judged: { List ℕ → Verdict };

    // The size in bytes that a right header tells.
    fn told_size(run: &[u8]) -> Option<usize>
        ensures { result ≡ told_by fit size run.now };

    // Whether the bytes are a frame, no more and no fewer.
    fn is_frame(bytes: &[u8]) -> bool
        ensures { result ≡ whole bytes.now };

    ghost laws: { HeadedLaws HEADER_SIZE LONGEST fit size whole IsFrame };

    // it goes by the header
    ghost by_header: { judged ≡ headed HEADER_SIZE fit size whole };
}

// The size that a right header tells. A function beside the trait's, since it
// brings `judge` two facts of the verdict: that it goes by the header, and that
// it is sound exactly where a frame stands.
fn told_size<H: Headed>(run: &[u8]) -> Option<usize>
    ensures value { result ≡ told_by H.fit H.size run.now }
    ensures by_header { H.judged run.now ≡ headed H.HEADER_SIZE H.fit H.size H.whole run.now }
    ensures exactly { SoundExactly H.judged H.IsFrame run.now }
{
    H::told_size(run)
}

// Every such format is a framing.
impl<H: Headed> Framing for H {
    ghost judged = { λ _. H.Headed.judged };

    ghost reach = { λ _. H.LONGEST };

    ghost lawful = { λ _. lawful_by H.laws H.by_header };

    fn judge(&self, run: &[u8]) -> Verdict
        ensures verdict { result ≡ H.Headed.judged run.now }
        ensures exactly { SoundExactly H.Headed.judged H.IsFrame run.now }
    {
        if run.len() < H::HEADER_SIZE {
            return Verdict::Short(H::HEADER_SIZE);
        }
        match told_size::<H>(run) {
            None => Verdict::Unfit,
            Some(size) if run.len() < size => Verdict::Short(size),
            Some(size) if H::is_frame(&run[..size]) => Verdict::Sound(size),
            Some(_) => Verdict::Unfit,
        }
    }

    fn longest(&self) -> usize {
        H::LONGEST
    }
}
