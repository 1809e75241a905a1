//! The commands over texts.
use crate::checking::check;
use crate::command::Command;
use crate::faults::Fault;
use crate::playing::play;
use crate::replaying::replay;
use crate::shell::TextCommand;
use std::alloc::{Allocator, Global};
use std::io::Write;

/// A command over a text. Where it is a document, its table is kept in the global heap, where `toml` keeps it.
#[derive(Clone, Copy, Debug)]
pub struct OverText {
    pub command: Command,
    pub global: Global,
}

impl TextCommand for OverText {
    ghost use Rattle.std.specs.Prelude.{◌≡◌};
    ghost use Rattle.reg_commands.specs.Answers.{Answers, Blames};
    ghost use Rattle.reg_commands.specs.declared.command.Command.TheVariants.{Check};

    type Fault = Fault;

    ghost MayDeny = { λ it. it.command ≡ Check };

    ghost IsAnswer = { λ it. Answers it.command };

    ghost IsBlamed = { λ it. Blames it.command };

    fn answer<A: Allocator + Copy, W: Write>(
        self,
        alloc: A,
        text: String<A>,
        writer: &mut W,
    ) -> Result<bool, Fault> {
        match self.command {
            Command::Replay => {
                replay(alloc, text, writer)?;
                Ok(true)
            }
            Command::Check => check(alloc, text, writer),
            Command::Play { fair } => {
                play(alloc, self.global, text.as_str(), fair, writer)?;
                Ok(true)
            }
        }
    }

    ghost blames_input = { λ it _ _ _ blamed. blamed it.command };
}
