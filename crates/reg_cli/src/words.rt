//! The words of the command line.
ghost use Rattle.std.specs.Prelude.{◌≡◌, IfOk};
ghost use Rattle.clap.specs.Words.{app_of};
ghost use Rattle.reg_cli.specs.Subcommands.{behind_name};
ghost use Rattle.reg_cli.specs.declared.words.Asked.{Asked};
ghost use Rattle.reg_cli.specs.Lines.{IsAnswer, is_fair, name_of};
ghost use Rattle.reg_cli.specs.Apps.{awreg};

use crate::faults::WordsFault;
use crate::subcommands::{has_dashes, met, with_fair};
use reg_commands::Command;
use std::alloc::{AllocError, Global};

/// What the words ask for.
#[derive(Clone, Copy, Debug, PartialEq, Eq)]
pub enum Asked {
    /// A command over the text on the input.
    Text { command: Command },
    /// The scripts of the workload on the input, performed by threads.
    Live,
}

/// The program's command line, with a subcommand for each command.
fn command_line<'a>(alloc: Global) -> Result<clap::Command<'a>, AllocError>
    ensures { IfOk result (λ c. app_of c ≡ awreg) }
{
    clap::Command::new(alloc, "awreg")
        .subcommand(clap::Command::new(alloc, "replay"))?
        .subcommand(clap::Command::new(alloc, "check"))?
        .subcommand(clap::Command::new(alloc, "live"))?
        .subcommand(with_fair(alloc, "play")?)
}

/// What the subcommand of this name asks for.
fn named(name: &str, fair: bool) -> Option<Asked>
    ensures { (asked : Asked) → name_of asked ≡ name.now → is_fair asked ≡ fair → result ≡ Some asked }
{
    let command = match name {
        "live" => return Some(Asked::Live),
        "replay" => Command::Replay,
        "check" => Command::Check,
        "play" => Command::Play { fair },
        _ => return None,
    };
    Some(Asked::Text { command })
}

/// What the words ask for. The first word is the program's name. Help, version texts, a line without a command and
/// every other refusal are `CommandLine`, and so is a word `--`. It is `OutOfMemory` where memory was refused.
pub fn choose<'a>(alloc: Global, words: &'a [String]) -> Result<Asked, WordsFault>
    ensures { IsAnswer (behind_name words.entry.now) result }
{
    if has_dashes(words) {
        return Err(WordsFault::CommandLine);
    }
    let matches = command_line::<'a>(alloc)?.try_get_matches_from(words)?;
    match met(&matches) {
        Some((name, fair)) => named(name, fair).ok_or(WordsFault::CommandLine),
        None => Err(WordsFault::CommandLine),
    }
}
