ghost use Rattle.std.specs.Prelude.{max};
ghost use Rattle.framing.specs.Pair.{either};
ghost use Rattle.framing.specs.Pairs.{pair_lawful};

use crate::framing::Framing;
use crate::verdict::Verdict;

// Two framings as one: the first judges, and where it says unfit the second's
// verdict counts.
#[derive(Drop)]
pub struct Pair<A, B> {
    pub first: A,
    pub second: B,
}

impl<A: Framing, B: Framing> Framing for Pair<A, B> {
    ghost judged = { λ p run. either (A.Framing.judged p.first run) (B.Framing.judged p.second run) };

    ghost reach = { λ p. max (A.Framing.reach p.first) (B.Framing.reach p.second) };

    ghost lawful = { λ p. pair_lawful (A.Framing.lawful p.first) (B.Framing.lawful p.second) };

    fn judge(&self, run: &[u8]) -> Verdict {
        match self.first.judge(run) {
            Verdict::Unfit => self.second.judge(run),
            told => told,
        }
    }

    fn longest(&self) -> usize {
        self.first.longest().max(self.second.longest())
    }
}
