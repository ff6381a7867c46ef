ghost use Rattle.std.specs.Prelude.{refl};
ghost use Rattle.aquadopp.specs.Structures.{size_told, longest_size, IsStructure};
ghost use Rattle.aquadopp.specs.Verdicts.{fit, whole, judged_run};
ghost use Rattle.aquadopp.specs.Sounds.{structure_laws};

use crate::structure::{HEAD_SIZE, check, told_words};
use framing::headed::Headed;

// The bytes of the longest structure.
pub const LONGEST: usize = 42;

// Aquadopp structures as a framing.
#[derive(Clone, Copy)]
pub struct Aquadopp;

impl Headed for Aquadopp {
    ghost HEADER_SIZE = { 4 };

    ghost LONGEST = { longest_size };

    const HEADER_SIZE: usize = HEAD_SIZE;

    const LONGEST: usize = LONGEST;

    ghost fit = { fit };

    ghost size = { size_told };

    ghost whole = { whole };

    ghost IsFrame = { IsStructure };

    ghost judged = { judged_run };

    ghost laws = { structure_laws };

    ghost by_header = { refl };

    #[tactic(auto, unfolding(crate::specs::Verdicts::fit))]
    fn told_size(run: &[u8]) -> Option<usize> {
        let words = told_words(run).ok()?;
        Some(2 * usize::from(words))
    }

    #[tactic(auto, unfolding(crate::specs::Verdicts::whole))]
    fn is_frame(bytes: &[u8]) -> bool {
        check(bytes).is_ok()
    }
}
