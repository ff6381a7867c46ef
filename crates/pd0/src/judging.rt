ghost use Rattle.std.specs.Prelude.{refl};
ghost use Rattle.pd0.specs.Ensembles.{IsEnsemble};
ghost use Rattle.pd0.specs.Layout.{header_size};
ghost use Rattle.pd0.specs.Questions.{longest_size};
ghost use Rattle.pd0.specs.Sounds.{ensemble_laws};
ghost use Rattle.pd0.specs.Verdicts.{fit, whole_size, whole, judged_run};

use crate::header::{HEADER_SIZE, MOST_COUNTED, read_header};
use crate::whole::is_whole;
use framing::headed::Headed;

// The bytes of the longest ensemble, its checksum among them.
pub const LONGEST: usize = MOST_COUNTED + 2;

// PD0 ensembles as a framing.
#[derive(Clone, Copy)]
pub struct Pd0;

impl Headed for Pd0 {
    ghost HEADER_SIZE = { header_size };

    ghost LONGEST = { longest_size };

    const HEADER_SIZE: usize = HEADER_SIZE;

    const LONGEST: usize = LONGEST;

    ghost fit = { fit };

    ghost size = { whole_size };

    ghost whole = { whole };

    ghost IsFrame = { IsEnsemble };

    ghost judged = { judged_run };

    ghost laws = { ensemble_laws };

    ghost by_header = { refl };

    #[tactic(auto, unfolding(crate::specs::Verdicts::fit))]
    fn told_size(run: &[u8]) -> Option<usize> {
        let header = read_header(run).ok()?;
        Some(header.size + 2)
    }

    #[tactic(auto, using(crate::proofs::Wholes::no_ensemble))]
    fn is_frame(bytes: &[u8]) -> bool {
        read_header(bytes).is_ok_and(|header| is_whole(bytes, header))
    }
}
