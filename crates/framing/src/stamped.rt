ghost use Rattle.std.specs.Prelude.{◌≡◌, ◌≤◌, length};
ghost use Rattle.framing.specs.Stamped.{is_stamp, stamped, with_stamp, behind_stamp};
ghost use Rattle.framing.specs.Stamps.{stamped_lawful};

use crate::framing::Framing;
use crate::verdict::Verdict;

// What every stamp begins with.
pub const MARK: [u8; 3] = [0x4c, 0x4f, 0x47];

// The one version of a stamp, a 16-bit number behind the mark.
pub const VERSION: u16 = 1;

// The bytes of a stamp: the mark, the version and 32 bits of seconds.
pub const STAMP_SIZE: usize = 9;

// Whether a run begins with the mark and the version.
#[tactic(auto, unfolding(crate::specs::Stamped::is_stamp))]
fn has_stamp(run: &[u8]) -> bool
    requires { 5 ≤ length run.now }
    ensures { result ≡ is_stamp run.now }
{
    run.starts_with(&MARK) && u16::from_le_bytes([run[3], run[4]]) == VERSION
}

// The verdict on what follows a stamp, as one on the stamp too.
fn with_stamp(behind: Verdict) -> Verdict
    ensures { result ≡ behind_stamp behind }
{
    match behind {
        Verdict::Sound(n) => Verdict::Sound(n.saturating_add(STAMP_SIZE)),
        Verdict::Short(m) => Verdict::Short(m.saturating_add(STAMP_SIZE)),
        Verdict::Unfit => Verdict::Unfit,
    }
}

// A framing whose frames each stand behind a stamp.
#[derive(Drop)]
pub struct Stamped<F> {
    pub below: F,
}

impl<F: Framing> Framing for Stamped<F> {
    ghost judged = { λ s run. stamped (F.Framing.judged s.below) run };

    ghost reach = { λ s. with_stamp (F.Framing.reach s.below) };

    ghost lawful = { λ s. stamped_lawful (F.Framing.lawful s.below) };

    fn judge(&self, run: &[u8]) -> Verdict {
        if run.len() < STAMP_SIZE {
            return Verdict::Short(STAMP_SIZE);
        }
        if !has_stamp(run) {
            return Verdict::Unfit;
        }
        let (_, rest) = run.split_at(STAMP_SIZE);
        with_stamp(self.below.judge(rest))
    }

    fn longest(&self) -> usize {
        self.below.longest().saturating_add(STAMP_SIZE)
    }
}
