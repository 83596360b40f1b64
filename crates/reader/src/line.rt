// Lines after the first. Fields are taken by `let .. else`, a rule of the project.
ghost use Rattle.std.specs.Prelude.{◌≡◌};
ghost use Rattle.reader.specs.Lines.{pour_line, command_of, reading};

use crate::command::Command;
use crate::fields::{expect_fields, read_due};
use crate::header::{read_feed, read_flag, read_named};
use crate::kind::Kind;
use crate::names::{ClusterName, SplitName};
use syntax::{Fault, Phase, Word, read_up_to};

// Reads `pour,X,Y` and an amount, in as many fields as its kind has parts.
fn read_pour<V: Kind>(line: &[u8]) -> Result<Command<V>, Fault>
    ensures { result ≡ pour_line V.Kind.form line.now }
{
    expect_fields(line, V::pour_fields())?;
    let Some(x) = read_up_to(line, 1, 255) else {
        return Err(Fault::Number);
    };
    let Some(y) = read_up_to(line, 2, 255) else {
        return Err(Fault::Number);
    };
    let Some(amount) = V::read(line) else {
        return Err(Fault::Number);
    };
    Ok(Command::Pour { x, y, amount })
}

// Reads a line that begins with this word.
fn read_command<V: Kind>(word: Word, line: &[u8]) -> Result<Command<V>, Fault>
    ensures { result ≡ command_of V.Kind.form word line.now }
{
    let splits = [("first", SplitName::First), ("even", SplitName::Even)];
    let clusters = [("runs", ClusterName::Runs), ("cells", ClusterName::Cells)];
    match word {
        Word::Mesh => Err(Fault::Order),
        Word::Rule => V::read_rule(line).map(|()| Command::Header),
        Word::Feed => read_feed(line).map(|()| Command::Header),
        Word::Split => read_named(line, &splits).map(|_| Command::Header),
        Word::Flag => read_flag(line).map(|()| Command::Header),
        Word::Cluster => read_named(line, &clusters).map(|_| Command::Header),
        Word::Pour => read_pour(line),
        Word::Audit => expect_fields(line, 1).map(|()| Command::Audit),
    }
}

// Reads a line after the first: what it says, and which line is due next.
pub fn read_line<V: Kind>(phase: Phase, line: &[u8]) -> Result<(Phase, Command<V>), Fault>
    ensures { result ≡ reading V.Kind.form phase line.now }
{
    let (word, next) = read_due(phase, line)?;
    let command = read_command(word, line)?;
    Ok((next, command))
}
