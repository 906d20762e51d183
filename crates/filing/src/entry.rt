ghost use Rattle.std.specs.Prelude.{◌≡◌};
ghost use Rattle.answer.specs.Told.{told, says, nothing};
ghost use Rattle.filing.specs.Filing.{verdict, entry_for, plain_in};
ghost use Rattle.lines.specs.Forms.{form_of};

use answer::{Answer, Refusal};
use docket::Entry;
use formula::Formula;
use lines::{Call, parse};

/// What the call was answered, without a figure.
// A function and no `From`, as it loses the figure.
fn verdict_of(answer: Answer) -> Result<(), Refusal>
    ensures { says nothing result ≡ verdict (told answer) }
{
    match answer {
        Answer::Done | Answer::Figure(_) => Ok(()),
        Answer::Refused(refusal) => Err(refusal),
    }
}

/// The entry of a line that was answered so: only releases and endorsements have one.
pub(crate) fn entry_of(line: &[u8], answer: Answer) -> Option<Entry>
    ensures { plain_in result ≡ entry_for (form_of line.now) (told answer) }
{
    let Call::Change {
        kind,
        task,
        record,
        new,
        ..
    } = parse(line)?
    else {
        return None;
    };
    Some(Entry {
        kind,
        task,
        record,
        answer: verdict_of(answer),
        new: Formula::try_from(new).ok()?,
    })
}
