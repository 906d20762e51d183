ghost use Rattle.std.specs.Prelude.{◌≡◌};
ghost use Rattle.std.specs.Str.{bytes_eq};
ghost use Rattle.lines.specs.Forms.{puts, drops, enter_form, open_form, close_form, take_form, put_form, drop_form, show_form, form_of};
ghost use Rattle.lines.specs.Left.{pair_said, change_form, say_in};

use crate::call::Call;
use crate::words_left::WordsLeft;
use label::Kind;

/// The longest line that is read as a call.
const LONGEST: usize = 4096;

fn enter<'a>(words: &mut WordsLeft<'a>) -> Option<Call<'a>>
    ensures { say_in result ≡ enter_form words.old }
{
    let record = words.number()?;
    let party = words.number()?;
    let figure = words.number()?;
    let label = words.label()?;
    words.end()?;
    Some(Call::Enter {
        record,
        party,
        figure,
        label,
    })
}

fn open<'a>(words: &mut WordsLeft<'a>) -> Option<Call<'a>>
    ensures { say_in result ≡ open_form words.old }
{
    let task = words.number()?;
    let party = words.number()?;
    words.end()?;
    Some(Call::Open { task, party })
}

fn close<'a>(words: &mut WordsLeft<'a>) -> Option<Call<'a>>
    ensures { say_in result ≡ close_form words.old }
{
    let task = words.number()?;
    words.end()?;
    Some(Call::Close { task })
}

fn take<'a>(words: &mut WordsLeft<'a>) -> Option<Call<'a>>
    ensures { say_in result ≡ take_form words.old }
{
    let task = words.number()?;
    let record = words.number()?;
    let manner = words.number()?;
    words.end()?;
    Some(Call::Take {
        task,
        record,
        manner,
    })
}

/// A task and a record, and nothing else.
fn task_and_record(words: &mut WordsLeft<'_>) -> Option<(u64, u64)>
    ensures puts { pair_said puts result ≡ put_form words.old }
    ensures drops { pair_said drops result ≡ drop_form words.old }
{
    let task = words.number()?;
    let record = words.number()?;
    words.end()?;
    Some((task, record))
}

fn show<'a>(words: &mut WordsLeft<'a>) -> Option<Call<'a>>
    ensures { say_in result ≡ show_form words.old }
{
    let record = words.number()?;
    let group = words.group()?;
    words.end()?;
    Some(Call::Show { record, group })
}

fn change<'a>(kind: Kind, words: &mut WordsLeft<'a>) -> Option<Call<'a>>
    ensures { say_in result ≡ change_form kind words.old }
{
    let task = words.number()?;
    let record = words.number()?;
    let new = words.formula()?;
    let key = words.key()?;
    words.end()?;
    Some(Call::Change {
        kind,
        task,
        record,
        new,
        key,
    })
}

/// Tells whether a word is that name.
fn is_name(word: &[u8], name: &[u8]) -> bool
    ensures { result ≡ bytes_eq word.now name.now }
{
    word == name
}

/// The call that a line writes, if the line has one of the forms.
pub fn parse(line: &[u8]) -> Option<Call<'_>>
    ensures { say_in result ≡ form_of line.now }
{
    if line.len() > LONGEST {
        return None;
    }
    let mut words = WordsLeft::new(line);
    let word = words.word()?;
    // One name after another: a `match` on byte strings has forty ways to its last arm, each to be proved, and a word
    // would have to be gone through before it can be matched as text. A `return` each, as a call is large to hand on.
    if is_name(word, b"enter") {
        return enter(&mut words);
    }
    if is_name(word, b"open") {
        return open(&mut words);
    }
    if is_name(word, b"close") {
        return close(&mut words);
    }
    if is_name(word, b"take") {
        return take(&mut words);
    }
    if is_name(word, b"put") {
        let (task, record) = task_and_record(&mut words)?;
        return Some(Call::Put { task, record });
    }
    if is_name(word, b"drop") {
        let (task, record) = task_and_record(&mut words)?;
        return Some(Call::Drop { task, record });
    }
    if is_name(word, b"show") {
        return show(&mut words);
    }
    if is_name(word, b"release") {
        return change(Kind::Release, &mut words);
    }
    if is_name(word, b"endorse") {
        return change(Kind::Endorse, &mut words);
    }
    None
}
