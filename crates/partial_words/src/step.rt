//! The atomic steps on the shared words, and their plain meaning on a list of words. All are sequentially
//! consistent.

ghost use Rattle.std.specs.Prelude.{◌≡◌, ◌<◌, length};

/// One atomic step on one word. Word numbers are below the total of the sizes.
#[derive(Clone, Copy, Debug, PartialEq, Eq)]
pub enum Step {
    /// Load the word. The answer is its value.
    Load(u32),
    /// Store the value in the word. The answer is 0.
    Store(u32, u64),
    /// Compare the word with the first value, and store the second value if they are equal
    /// (compare-and-swap). The answer is the value that the word had before. The exchange is won when that
    /// is the first value.
    Exchange(u32, u64, u64),
    /// Add the value to the word (fetch-and-add), modulo 2^64. The answer is the value that the word had
    /// before.
    Add(u32, u64),
}

/// An atomic step of a port, with its answer.
#[derive(Clone, Copy, Debug, PartialEq, Eq)]
pub struct Event {
    /// The port that made the step.
    pub port: u32,
    /// The step.
    pub step: Step,
    /// Its answer.
    pub answer: u64,
}

impl Step {
    ghost use Rattle.partial_words.specs.Step.{word_of, answer_of, words_after};

    /// The number of the word on which the step acts.
    pub fn word(self) -> u32
        ensures { result ≡ word_of self }
    {
        match self {
            Step::Load(word) => word,
            Step::Store(word, _) => word,
            Step::Exchange(word, _, _) => word,
            Step::Add(word, _) => word,
        }
    }

    /// Makes the step on plain words, and returns its answer.
    pub fn perform(self, words: &mut [u64]) -> u64
        requires { word_of self < length words.old }
        ensures answer { result ≡ answer_of words.old self }
        ensures words { words.new ≡ words_after words.old self }
    {
        let at = self.word() as usize;
        let before = words[at];
        match self {
            Step::Load(_) => before,
            Step::Store(_, value) => {
                words[at] = value;
                0
            }
            Step::Exchange(_, old, new) => {
                words[at] = if before == old { new } else { before };
                before
            }
            Step::Add(_, amount) => {
                words[at] = before.wrapping_add(amount);
                before
            }
        }
    }
}
