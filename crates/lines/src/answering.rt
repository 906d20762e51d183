ghost use Rattle.std.specs.Prelude.{◌≡◌};
ghost use Rattle.answer.specs.Told.{told, says};
ghost use Rattle.monitor.specs.View.{view};
ghost use Rattle.lines.specs.Left.{say};
ghost use Rattle.lines.specs.Obey.{obeying, line_ruled, values};

use crate::call::Call;
use crate::forms::parse;
use crate::line_key::LineKey;
use answer::{Answer, Refusal};
use label::Kind;
use monitor::Monitor;

/// Makes the call, and answers the figure that it brings, if any.
fn make(monitor: &mut Monitor, call: Call<'_>) -> Result<Option<u32>, Refusal>
    ensures answer { says values result ≡ (obeying (view monitor.old.tables) (say call.entry)).answer }
    ensures after { view monitor.new.tables ≡ (obeying (view monitor.old.tables) (say call.entry)).state }
{
    match call {
        Call::Enter {
            record,
            party,
            figure,
            label,
        } => monitor.enter(record, party, figure, label.try_into()?)?,
        Call::Open { task, party } => monitor.open(task, party)?,
        Call::Close { task } => monitor.close(task)?,
        Call::Take {
            task,
            record,
            manner,
        } => monitor.take(task, record, manner)?,
        Call::Put { task, record } => monitor.put(task, record)?,
        Call::Drop { task, record } => monitor.drop(task, record)?,
        Call::Show { record, group } => return Ok(Some(monitor.show(record, group)?)),
        Call::Change {
            kind,
            task,
            record,
            new,
            key,
        } => {
            let new = new.try_into()?;
            let key = LineKey::try_from(key)?;
            match kind {
                Kind::Release => monitor.release(task, record, new, &key)?,
                Kind::Endorse => monitor.endorse(task, record, new, &key)?,
            }
        }
    }
    Ok(None)
}

/// Reads a line, makes its call, and answers.
pub fn obey(monitor: &mut Monitor, line: &[u8]) -> Answer
    ensures answer { told result ≡ (line_ruled (view monitor.old.tables) line.now).answer }
    ensures after { view monitor.new.tables ≡ (line_ruled (view monitor.old.tables) line.now).state }
{
    let Some(call) = parse(line) else {
        return Answer::Refused(Refusal::NoForm);
    };
    Answer::from(make(monitor, call))
}
