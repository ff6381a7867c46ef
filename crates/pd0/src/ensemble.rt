ghost use Rattle.std.specs.Prelude.{◌≡◌, ◌≤◌};
ghost use Rattle.pd0.specs.Layout.{count_of};
ghost use Rattle.pd0.specs.Invariant.{Bare, Opens, Whole, Behind, Apart, Inside, Celled, Filled};
ghost use Rattle.pd0.specs.Questions.{most_sections};

pub mod parts;
pub mod place;

// A place for an ensemble: new, it holds no section; opened, its sections stand
// in ascending order, apart from each other and inside the counted bytes, over
// the bytes that were lent.
#[derive(Drop)]
pub struct Ensemble<'a> {
    bytes: &'a [u8],
    count: usize,
    ghost few: { count ≤ most_sections },
    ghost counted: { count ≡ count_of bytes.now },
    ghost bare: { Bare bytes.now count },
    ghost opens: { Opens bytes.now count },
    ghost whole: { Whole bytes.now count },
    ghost behind: { Behind bytes.now count },
    ghost apart: { Apart bytes.now count },
    ghost inside: { Inside bytes.now count },
    ghost celled: { Celled bytes.now count },
    ghost filled: { Filled bytes.now count },
}
