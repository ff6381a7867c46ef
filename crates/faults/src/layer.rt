ghost use Rattle.std.specs.Prelude.{◌≡◌, Some};
ghost use Rattle.faults.specs.Words.{layer_word};

use std::fmt;

// Where in the work a question is asked: of a frame's bytes, of what its
// sections hold, or of the line that frames come in on.
#[derive(Clone, Copy, PartialEq, Eq, Debug)]
pub enum Layer {
    Frame,
    Section,
    Line,
}

impl Layer {
    fn word(&self) -> &'static str
        ensures { result.now ≡ layer_word self.now }
    {
        match self {
            Layer::Frame => "frame",
            Layer::Section => "section",
            Layer::Line => "line",
        }
    }
}

impl fmt::Display for Layer {
    ghost output = { λ l. Some (layer_word l) };

    fn fmt<W: fmt::Write>(&self, f: &mut fmt::Formatter<W>) -> fmt::Result {
        f.write_str(self.word())
    }
}
