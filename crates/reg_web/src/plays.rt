//! The functions that the host calls of workloads. Each works in the room that is lent to it, and leaves in it what it
//! did not touch.
ghost use Rattle.std.specs.Prelude.{min, max, true, false, None};
ghost use Rattle.reg_commands.specs.Lent.{Fills};
ghost use Rattle.reg_commands.specs.Replays.{start_of};
ghost use Rattle.reg_outcomes.specs.AllText.{ShowsAll};
ghost use Rattle.reg_outcomes.specs.declared.tables.plays.TheConstants.{MOST_PLAYS};
ghost use Rattle.reg_show.specs.AllOutcomes.{StopsAll};
ghost use Rattle.reg_show.specs.OneOutcome.{ShowsOutcome, StopsOutcome};
ghost use Rattle.reg_show.specs.Outcomes.{ShowsOutcomes, StopsPlays};
ghost use Rattle.reg_show.specs.Schedules.{ShowsSchedule, StopsSchedule};
ghost use Rattle.reg_show.specs.Seeds.{reseeded};
ghost use Rattle.reg_show.specs.Shorts.{ShowsShort, StopsShort};
ghost use Rattle.reg_web.specs.Texts.{IsLaidOut, IsPlayed, IsShownOf};

use crate::layouts::{InLayout, LayOut, Play};
use crate::telling::tell_in;
use reg_commands::Lengths;
use reg_heap::Room;
use reg_outcomes::MOST_PLAYS;
use reg_show::{EveryOutcome, FullSchedule, ManyPlays, OneOutcome, Player, ShortSchedule};

/// Puts the workload that a text seems to say into its layout. The answer is the layout, and the status 0; or 1 with
/// the line of a fault.
#[unsafe(no_mangle)]
pub extern "C" fn tellwydar_layout(
    room: &mut Room,
    text: &[u8],
    output: &mut [u8],
    errors: &mut [u8],
    lengths: &mut Lengths,
) -> u8
    ensures { Fills (IsLaidOut text.now) result output.old output.new errors.old errors.new lengths.new }
{
    let command = LayOut;
    tell_in(command, room, text, output, errors, lengths)
}

/// Plays a workload that is in its layout as the words of its seed say. The answer is the report of the play, and the
/// status 0; or 1 with the line of a fault.
#[unsafe(no_mangle)]
pub extern "C" fn tellwydar_play(
    room: &mut Room,
    text: &[u8],
    output: &mut [u8],
    errors: &mut [u8],
    lengths: &mut Lengths,
) -> u8
    ensures { Fills (IsPlayed false text.now) result output.old output.new errors.old errors.new lengths.new }
{
    let command = Play { fair: false };
    let command = InLayout { command };
    tell_in(command, room, text, output, errors, lengths)
}

/// Plays a workload that is in its layout fairly. The answer is the report of the play, and the status 0; or 1
/// with the line of a fault.
#[unsafe(no_mangle)]
pub extern "C" fn tellwydar_play_fair(
    room: &mut Room,
    text: &[u8],
    output: &mut [u8],
    errors: &mut [u8],
    lengths: &mut Lengths,
) -> u8
    ensures { Fills (IsPlayed true text.now) result output.old output.new errors.old errors.new lengths.new }
{
    let command = Play { fair: true };
    let command = InLayout { command };
    tell_in(command, room, text, output, errors, lengths)
}

/// Plays a workload that is in its layout as the words of its seed say. The answer is the schedule of the play, and the
/// status 0; or 1 with the line of a fault.
#[unsafe(no_mangle)]
pub extern "C" fn tellwydar_schedule(
    room: &mut Room,
    text: &[u8],
    output: &mut [u8],
    errors: &mut [u8],
    lengths: &mut Lengths,
) -> u8
    ensures { Fills (IsShownOf (λ fault _. StopsSchedule fault)
        (λ Wrote work. ShowsSchedule false (start_of work.front) Wrote (reseeded None work)) text.now) result output.old
        output.new errors.old errors.new lengths.new }
{
    let player = Player::Seeded { seed: None };
    let command = FullSchedule { player };
    let command = InLayout { command };
    tell_in(command, room, text, output, errors, lengths)
}

/// Plays a workload that is in its layout as the words of its seed say. The answer is the schedule of the short form of
/// the play, and the status 0; or 1 with the line of a fault.
#[unsafe(no_mangle)]
pub extern "C" fn tellwydar_short(
    room: &mut Room,
    text: &[u8],
    output: &mut [u8],
    errors: &mut [u8],
    lengths: &mut Lengths,
) -> u8
    ensures { Fills
        (IsShownOf (λ fault work. StopsShort false (start_of work.front) (reseeded None work) fault)
        (λ Wrote work. ShowsShort false (start_of work.front) Wrote (reseeded None work)) text.now)
        result output.old output.new errors.old errors.new lengths.new }
{
    let player = Player::Seeded { seed: None };
    let command = ShortSchedule { player };
    let command = InLayout { command };
    tell_in(command, room, text, output, errors, lengths)
}

/// Plays a workload that is in its layout fairly. The answer is the schedule of the play, and the status 0;
/// or 1 with the line of a fault.
#[unsafe(no_mangle)]
pub extern "C" fn tellwydar_schedule_fair(
    room: &mut Room,
    text: &[u8],
    output: &mut [u8],
    errors: &mut [u8],
    lengths: &mut Lengths,
) -> u8
    ensures { Fills (IsShownOf (λ fault _. StopsSchedule fault)
        (λ Wrote work. ShowsSchedule true (start_of work.front) Wrote (reseeded None work)) text.now) result output.old
        output.new errors.old errors.new lengths.new }
{
    let player = Player::Fair;
    let command = FullSchedule { player };
    let command = InLayout { command };
    tell_in(command, room, text, output, errors, lengths)
}

/// Plays a workload that is in its layout fairly. The answer is the schedule of the short form of the play, and
/// the status 0; or 1 with the line of a fault.
#[unsafe(no_mangle)]
pub extern "C" fn tellwydar_short_fair(
    room: &mut Room,
    text: &[u8],
    output: &mut [u8],
    errors: &mut [u8],
    lengths: &mut Lengths,
) -> u8
    ensures { Fills
        (IsShownOf (λ fault work. StopsShort true (start_of work.front) (reseeded None work) fault)
        (λ Wrote work. ShowsShort true (start_of work.front) Wrote (reseeded None work)) text.now)
        result output.old output.new errors.old errors.new lengths.new }
{
    let player = Player::Fair;
    let command = ShortSchedule { player };
    let command = InLayout { command };
    tell_in(command, room, text, output, errors, lengths)
}

/// Plays a workload that is in its layout so many times; a number above `MOST_PLAYS` counts as that. The answer is the
/// table of what the plays told, and the status 0; or 1 with the line of a fault.
#[unsafe(no_mangle)]
pub extern "C" fn tellwydar_outcomes(
    room: &mut Room,
    text: &[u8],
    plays: u32,
    output: &mut [u8],
    errors: &mut [u8],
    lengths: &mut Lengths,
) -> u8
    ensures { Fills
        (IsShownOf (λ fault work. StopsPlays (min plays MOST_PLAYS) (start_of work.front) (reseeded None work) fault)
        (λ Wrote work. ShowsOutcomes (min plays MOST_PLAYS) (start_of work.front) Wrote (reseeded None work)) text.now)
        result output.old output.new errors.old errors.new lengths.new }
{
    let plays = plays.min(MOST_PLAYS);
    let command = ManyPlays { plays, seed: None };
    let command = InLayout { command };
    tell_in(command, room, text, output, errors, lengths)
}

/// Finds all outcomes that the scripts of a workload that is in its layout can have. The answer is their text, and the
/// status 0; or 1 with the line of a fault.
#[unsafe(no_mangle)]
pub extern "C" fn tellwydar_outcomes_all(
    room: &mut Room,
    text: &[u8],
    output: &mut [u8],
    errors: &mut [u8],
    lengths: &mut Lengths,
) -> u8
    ensures { Fills (IsShownOf (λ fault work. StopsAll work fault)
        (λ Wrote work. ShowsAll work.scripts work.shape.registers Wrote) text.now) result output.old output.new
        errors.old errors.new lengths.new }
{
    let command = EveryOutcome;
    let command = InLayout { command };
    tell_in(command, room, text, output, errors, lengths)
}

/// Finds the outcome of this number among all that the scripts of a workload in its layout can have, counted from 1; 0
/// counts as 1. The answer is the schedule of a run with it, and the status 0; or 1 with the line of a fault.
#[unsafe(no_mangle)]
pub extern "C" fn tellwydar_outcome(
    room: &mut Room,
    text: &[u8],
    number: u32,
    output: &mut [u8],
    errors: &mut [u8],
    lengths: &mut Lengths,
) -> u8
    ensures { Fills
        (IsShownOf (λ fault work. StopsOutcome (max number 1) work fault)
        (λ Wrote work. ShowsOutcome (max number 1) (start_of work.front) Wrote work) text.now)
        result output.old output.new errors.old errors.new lengths.new }
{
    let number = number.max(1);
    let command = OneOutcome { number };
    let command = InLayout { command };
    tell_in(command, room, text, output, errors, lengths)
}
