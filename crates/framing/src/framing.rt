ghost use Rattle.std.specs.Prelude.{◌≡◌, ℕ, List};
ghost use Rattle.framing.specs.declared.verdict.Verdict.{Verdict};
ghost use Rattle.framing.specs.Laws.{Lawful};

use crate::verdict::Verdict;

// A way to tell where frames stand in a run of bytes. What it means is a
// verdict for every run and a longest; the code answers exactly by that
// meaning. Whatever stands on framings may use the meaning and its laws, and
// nothing else.
pub trait Framing {
    // the verdict on each run of bytes
    ghost judged: { Self → List ℕ → Verdict };

    // the length that no frame passes, and no number of wanted bytes
    ghost reach: { Self → ℕ };

    // The verdict on a run.
    fn judge(&self, run: &[u8]) -> Verdict
        ensures { result ≡ judged self.now run.now };

    // The longest.
    fn longest(&self) -> usize
        ensures { result ≡ reach self.now };

    // the range of the longest, and size, waiting and staying
    ghost lawful: { (f : Self) → Lawful (judged f) (reach f) };
}
