ghost use Rattle.std.specs.Prelude.{◌≡◌, [], Ok, MatchResult};
ghost use Rattle.faults.specs.Questions.{answered, first_fault};
ghost use Rattle.pd0.specs.Held.{held};
ghost use Rattle.pd0.specs.Ensembles.{OpeningLaws};
ghost use Rattle.pd0.specs.Questions.{header_of, questions, opened};

use crate::check::check;
use crate::ensemble::Ensemble;
use crate::header::Header;
use faults::section::SectionFault;

impl<'a> Ensemble<'a> {
    // A new place, which holds no section.
    pub fn new() -> Ensemble<'a>
        ensures { held result ≡ [] }
    {
        Ensemble {
            bytes: &[],
            count: 0,
        }
    }

    // Takes over bytes of which every question was answered by yes.
    fn fill(&mut self, bytes: &'a [u8], header: Header)
        requires { Ok header ≡ answered (first_fault (questions bytes.now)) (header_of bytes.now) }
        ensures { held self.new ≡ bytes.now }
    {
        self.bytes = bytes;
        self.count = header.count;
    }

    // Fills the place with the ensemble that the bytes are, or refuses and
    // leaves the place as it was.
    pub fn open(&mut self, bytes: &'a [u8]) -> Result<(), SectionFault>
        ensures value { result ≡ opened bytes.now }
        ensures laws { OpeningLaws bytes.now }
        ensures place { MatchResult result (λ _. held self.new ≡ bytes.now) (λ _. self.new ≡ self.old) }
    {
        let header = check(bytes)?;
        self.fill(bytes, header);
        Ok(())
    }
}
