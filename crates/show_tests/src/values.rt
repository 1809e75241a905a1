//! Values that several tests speak of.
ghost use Rattle.std.specs.Prelude.{◌≡◌, ◌≤◌, [], Some};
ghost use Rattle.std.specs.Io.KnownBytes.{Appends};
ghost use Rattle.reg_cli.specs.declared.words.Asked.{Asked};
ghost use Rattle.reg_commands.specs.Replays.{start_of};
ghost use Rattle.reg_commands.specs.Works.{OfDocument as IsOfDocument};
ghost use Rattle.reg_show.specs.Schedules.{ShowsSchedule};
ghost use Rattle.reg_show.specs.Seeds.{IsSeed, is_fair, reseeded, seed_of};
ghost use Rattle.reg_show.specs.Showings.{Shows};

use reg_cli::{Asked, Command};
use reg_commands::{OfDocument, run_command};
use reg_show::{Form, FullSchedule, Player, ShowEither, Showing, View};
use std::alloc::Global;

/// What the words of a command over the text on the input ask for.
pub fn over_text(command: Command) -> Asked
    ensures { result ≡ Asked.Text command }
{
    Asked::Text { command }
}

/// What a text is shown as in a view: the status, the output and the faults.
pub fn shown_in(alloc: Global, view: View, text: &[u8]) -> (u8, Vec<u8>, Vec<u8>)
    ensures range { result.0 ≤ 1 }
    ensures shown { result.0 ≡ 0 → Shows view (Appends (Some []) (Some result.1.items)) text.now }
    ensures quiet { result.0 ≡ 0 → result.2.items ≡ [] }
{
    let mut reader = text;
    let (mut output, mut errors) = (Vec::new(alloc), Vec::new(alloc));
    let global = alloc;
    let command = ShowEither { view, global };
    let status = run_command(command, alloc, &mut reader, &mut output, &mut errors);
    (status, output, errors)
}

/// What a text is shown as, of a workload's play all of it: the status, the output and the faults.
pub fn shown(alloc: Global, showing: Showing, text: &[u8]) -> (u8, Vec<u8>, Vec<u8>)
    ensures range { result.0 ≤ 1 }
    ensures quiet { result.0 ≡ 0 → result.2.items ≡ [] }
{
    let form = Form::Whole;
    shown_in(alloc, View { showing, form }, text)
}

/// What is written of a player's play of the workload that a text says: the status, the output and the faults.
pub fn scheduled(alloc: Global, player: Player, text: &[u8]) -> (u8, Vec<u8>, Vec<u8>)
    requires { IsSeed (seed_of player) }
    ensures range { result.0 ≤ 1 }
    ensures shown { result.0 ≡ 0
        → IsOfDocument
        (λ Wrote work. ShowsSchedule (is_fair player) (start_of work.front) Wrote (reseeded (seed_of player) work))
        (Appends (Some []) (Some result.1.items)) text.now }
    ensures quiet { result.0 ≡ 0 → result.2.items ≡ [] }
{
    let mut reader = text;
    let (mut output, mut errors) = (Vec::new(alloc), Vec::new(alloc));
    let (command, global) = (FullSchedule { player }, alloc);
    let command = OfDocument { command, global };
    let status = run_command(command, alloc, &mut reader, &mut output, &mut errors);
    (status, output, errors)
}
