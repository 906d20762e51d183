ghost use Rattle.std.specs.Prelude.{◌≡◌, ◌+◌, ◌<◌, ◌≤◌, ◌++◌, Some};
ghost use Rattle.arrayvec.specs.ArrayString.{array_string_len};
ghost use Rattle.answer.specs.Told.{told};
ghost use Rattle.answer.specs.Text.{text, hex_text, hex_digit};

use crate::Answer;
use arrayvec::ArrayString;
use itoa::Buffer;
use std::fmt;

/// The last hexadecimal digit of a number.
fn hex_digit(n: u16) -> char
    ensures { result ≡ hex_digit n }
{
    char::from_digit(u32::from(n % 16), 16).unwrap()
}

/// Appends a group, as four hexadecimal digits.
fn push_group<const N: usize>(text: &mut ArrayString<N>, group: u16)
    requires { array_string_len text.old + 4 ≤ N }
    ensures { text.new.bytes ≡ text.old.bytes ++ hex_text group }
{
    text.push(hex_digit(group / 4096));
    text.push(hex_digit(group / 256));
    text.push(hex_digit(group / 16));
    text.push(hex_digit(group));
}

/// Appends what is printed of the answer: at the longest `ok ` and a figure of ten digits.
pub(crate) fn push_answer<const N: usize>(out: &mut ArrayString<N>, answer: Answer)
    requires { array_string_len out.old + 13 ≤ N }
    ensures { out.new.bytes ≡ out.old.bytes ++ text (told answer) }
{
    let mut digits = Buffer::new();
    match answer {
        Answer::Done => out.push_str("ok"),
        Answer::Figure(figure) => {
            out.push_str("ok ");
            out.push_str(digits.format(figure));
        }
        Answer::Refused(refusal) => {
            out.push_str(digits.format(refusal.number()));
            if let Some(group) = refusal.group() {
                out.push_str(" ");
                push_group(out, group);
            }
        }
    }
}

impl Answer {
    /// What is printed of the answer.
    pub fn text(self) -> ArrayString<13>
        ensures { result.bytes ≡ text (told self) }
    {
        let mut text = ArrayString::new();
        push_answer(&mut text, self);
        text
    }
}

impl fmt::Display for Answer {
    ghost output = { λ a. Some (text (told a)) };

    fn fmt<W: fmt::Write>(&self, f: &mut fmt::Formatter<W>) -> fmt::Result {
        f.write_str(self.text().as_str())
    }
}
