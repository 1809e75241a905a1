//! The commands over the texts of schedules and of reports.
use reg_commands::{Fault, TextCommand, check, replay};
use reg_show::{ShowFault, Showing, show_run};
use std::alloc::Allocator;
use std::io::Write;

/// Runs a schedule, and writes the report of its run.
#[derive(Clone, Copy)]
pub(crate) struct Replay;

impl TextCommand for Replay {
    ghost use Rattle.std.specs.Prelude.{◌≡◌};
    ghost use Rattle.reg_commands.specs.Answers.{Answers, Blames};
    ghost use Rattle.reg_commands.specs.declared.command.Command.TheVariants.{Check as CheckCommand};
    ghost use Rattle.reg_commands.specs.declared.command.Command.TheVariants.{Replay as ReplayCommand};

    type Fault = Fault;

    ghost MayDeny = { λ _. ReplayCommand ≡ CheckCommand };

    ghost IsAnswer = { λ _. Answers ReplayCommand };

    ghost IsBlamed = { λ _. Blames ReplayCommand };

    fn answer<A: Allocator + Copy, W: Write>(
        self,
        alloc: A,
        text: String<A>,
        writer: &mut W,
    ) -> Result<bool, Fault> {
        replay(alloc, text, writer)?;
        Ok(true)
    }

    ghost blames_input = { λ _ _ _ _ blamed. blamed ReplayCommand };
}

/// Judges a report from its text alone.
#[derive(Clone, Copy)]
pub(crate) struct Check;

impl TextCommand for Check {
    ghost use Rattle.std.specs.Prelude.{◌≡◌};
    ghost use Rattle.reg_commands.specs.Answers.{Answers, Blames};
    ghost use Rattle.reg_commands.specs.declared.command.Command.TheVariants.{Check as CheckCommand};

    type Fault = Fault;

    ghost MayDeny = { λ _. CheckCommand ≡ CheckCommand };

    ghost IsAnswer = { λ _. Answers CheckCommand };

    ghost IsBlamed = { λ _. Blames CheckCommand };

    fn answer<A: Allocator + Copy, W: Write>(
        self,
        alloc: A,
        text: String<A>,
        writer: &mut W,
    ) -> Result<bool, Fault> {
        check(alloc, text, writer)
    }

    ghost blames_input = { λ _ _ _ _ blamed. blamed CheckCommand };
}

/// Shows the run of a schedule.
#[derive(Clone, Copy)]
pub(crate) struct ShowSchedule {
    pub showing: Showing,
}

impl TextCommand for ShowSchedule {
    ghost use Rattle.std.specs.Prelude.{refl};
    ghost use Rattle.std.proofs.Common.{inl};
    ghost use Rattle.reg_commands.specs.declared.command.Command.TheVariants.{Replay as ReplayCommand};
    ghost use Rattle.reg_show.specs.Showings.{BlamesText, ShowsText};

    type Fault = ShowFault;

    ghost IsAnswer = { λ it _. ShowsText it.showing };

    ghost IsBlamed = { λ it. BlamesText it.showing };

    fn answer<A: Allocator + Copy, W: Write>(
        self,
        alloc: A,
        text: String<A>,
        writer: &mut W,
    ) -> Result<bool, ShowFault> {
        show_run(alloc, self.showing, text.as_str(), writer)?;
        Ok(true)
    }

    ghost blames_input = { λ _ fault _ _ blamed. inl (fault, refl, blamed ReplayCommand) };
}
