// What find answers.
#[derive(Clone, Copy, PartialEq, Eq, Debug)]
pub enum Answer {
    // No frame yet; so many bytes are asked for.
    Wanting(usize),
    // A frame of so many bytes is found.
    Frame(usize),
    // The receiver has ended, and holds nothing any more.
    Over,
}

// The answer, and how many bytes find dropped before it.
#[derive(Clone, Copy, PartialEq, Eq, Debug)]
pub struct Finding {
    pub answer: Answer,
    pub dropped: usize,
}
