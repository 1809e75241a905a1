//! Which of the three texts a text is.
ghost use Rattle.std.specs.Prelude.{◌≡◌};
ghost use Rattle.reg_commands.specs.Kinds.{behind_mark as behind_mark_of, kind_of as kind_of_text};
ghost use Rattle.reg_commands.specs.Kinds.{kind_of_line as kind_of_line_text, command_of as command_of_kind};

use crate::command::Command;
use reg_text::Lines;

/// What a text is meant as.
#[derive(Clone, Copy, Debug, PartialEq, Eq)]
pub enum Kind {
    Report,
    Schedule,
    Workload,
}

/// The bytes after a byte order mark, where one stands at the start.
fn behind_mark(text: &[u8]) -> &[u8]
    ensures { result.now ≡ behind_mark_of text.now }
{
    if text.starts_with(&[0xEF, 0xBB, 0xBF]) {
        &text[3..]
    } else {
        text
    }
}

fn kind_of_line(line: &[u8]) -> Kind
    ensures { result ≡ kind_of_line_text line.now }
{
    if line.starts_with(b"awreg ") {
        return Kind::Report;
    }
    if line.starts_with(b"processes ") {
        return Kind::Schedule;
    }
    Kind::Workload
}

/// What a text is meant as, by its first line that is neither empty nor begins with `#`. A byte order mark before it is
/// passed over.
pub fn kind_of(text: &[u8]) -> Kind
    ensures { result ≡ kind_of_text text.now }
{
    match Lines::skipping(behind_mark(text)).next() {
        Some(line) => kind_of_line(line),
        None => Kind::Workload,
    }
}

/// The command that reads such texts.
pub fn command_of(kind: Kind) -> Command
    ensures { result ≡ command_of_kind kind }
{
    match kind {
        Kind::Report => Command::Check,
        Kind::Schedule => Command::Replay,
        Kind::Workload => Command::Play { fair: false },
    }
}
