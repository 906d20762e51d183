ghost use Rattle.std.specs.Prelude.{◌≡◌, Some};
ghost use Rattle.answer.specs.Told.{told};
ghost use Rattle.answer.specs.Text.{numbered};

use crate::Answer;
use crate::text::push_answer;
use arrayvec::ArrayString;
use itoa::Buffer;
use std::fmt;

/// An answer behind the number of its line.
#[derive(Clone, Copy)]
pub struct Numbered {
    pub line: u64,
    pub answer: Answer,
}

impl Numbered {
    /// What is printed of it. The longest is a number of twenty digits, a space, and the longest answer.
    pub fn text(self) -> ArrayString<34>
        ensures { result.bytes ≡ numbered self.line (told self.answer) }
    {
        let mut numbered = ArrayString::new();
        let mut digits = Buffer::new();
        numbered.push_str(digits.format(self.line));
        numbered.push_str(" ");
        push_answer(&mut numbered, self.answer);
        numbered
    }
}

impl fmt::Display for Numbered {
    ghost output = { λ n. Some (numbered n.line (told n.answer)) };

    fn fmt<W: fmt::Write>(&self, f: &mut fmt::Formatter<W>) -> fmt::Result {
        f.write_str(self.text().as_str())
    }
}
