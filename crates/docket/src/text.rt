ghost use Rattle.std.specs.Prelude.{◌≡◌, Some};
ghost use Rattle.answer.specs.Told.{told, says, nothing};
ghost use Rattle.docket.specs.Entries.{plain_of};
ghost use Rattle.docket.specs.Text.{entry_text};

use crate::Entry;
use answer::Answer;
use std::fmt;

impl fmt::Display for Entry {
    ghost output = { λ e. Some (entry_text (plain_of e)) };

    fn fmt<W: fmt::Write>(&self, f: &mut fmt::Formatter<W>) -> fmt::Result {
        let answer = Answer::from(self.answer);
        write!(
            f,
            "{} {} {} {answer} {}",
            self.kind, self.task, self.record, self.new
        )
    }
}
