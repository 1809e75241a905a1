//! Command lines whose subcommands take no word, or the flag `--fair`.
ghost use Rattle.std.specs.Prelude.{◌≡◌, Bool, List, None, Some, IfOk, false};
ghost use Rattle.std.specs.List.{list_any};
ghost use Rattle.clap.specs.Words.{Text, app_of, subcommand_rows_of};
ghost use Rattle.clap.specs.declared.builder.command.Command.TheViews.{out-Command as fields_of};
ghost use Rattle.reg_cli.specs.Subcommands.{behind_name, fair_app, is_dashes, met_of, seen};

use clap::{Arg, ArgAction, ArgMatches, Command};
use std::alloc::{AllocError, Global};

/// A subcommand that takes the flag `--fair`.
///
/// # Errors
///
/// Memory was refused.
pub fn with_fair<'a>(alloc: Global, name: &'a str) -> Result<Command<'a>, AllocError>
    ensures app { IfOk result (λ c. app_of c ≡ fair_app name.entry.now) }
    ensures local { IfOk result (λ c. (fields_of c).has_globals ≡ false) }
{
    let fair = Arg::new(alloc, "fair")
        .long("fair")
        .action(ArgAction::SetTrue);
    Command::new(alloc, name).arg(fair)
}

/// Whether a word after the program's name is `--`.
pub fn has_dashes(words: &[String]) -> bool
    ensures { result ≡ list_any is_dashes (behind_name words.now) }
{
    words.iter().skip(1).any(|word| word.as_str() == "--")
}

/// The subcommand that the words name, and whether it has the flag `--fair`.
pub fn met<'a>(matches: &ArgMatches<'a>) -> Option<(&'a str, bool)>
    ensures none { met_of (subcommand_rows_of matches.now) ≡ None → result ≡ None }
    ensures some { (name : Text) (fair : Bool) → met_of (subcommand_rows_of matches.now) ≡ Some (name, Some fair)
        → seen result ≡ Some (name, fair) }
{
    let (name, inner) = matches.subcommand()?;
    Some((name, inner.get_flag("fair")))
}
