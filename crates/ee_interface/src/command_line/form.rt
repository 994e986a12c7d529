//! How a part keeps its words.
ghost use Rattle.std.specs.Prelude.{◌≡◌};
ghost use Rattle.ee_interface.specs.CommandLine.Form.{dump_length, word_length};

use ee_flash::Shape;

/// How a part keeps its words.
///
/// Source: ours.
#[derive(Clone, Copy, Debug, PartialEq, Eq)]
pub enum Form {
    /// Each as itself, in eight bytes: a part with error correction.
    Words,
    /// Each as a number beside its complement, in 16 bytes: a part without (`ee_nor`).
    Pairs,
    /// Each as a number with a check, in eight bytes: a part with error correction
    /// (`ee_nor::coded`).
    Coded,
}

impl Form {
    /// How many bytes the words of both sets have.
    pub fn dump_length(self, shape: Shape) -> usize
        ensures { result ≡ dump_length self shape }
    {
        self.word_length() * (2 * shape.pages() * shape.words())
    }

    /// How many bytes a word has.
    pub fn word_length(self) -> usize
        ensures { result ≡ word_length self }
    {
        match self {
            Form::Words | Form::Coded => 8,
            Form::Pairs => 16,
        }
    }
}
