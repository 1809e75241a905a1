//! The law of stories. It is a function that does nothing: its contract is the law.
ghost use Rattle.std.specs.Prelude.{List, []};
ghost use Rattle.reg_checkers.specs.History.{IsAt};
ghost use Rattle.reg_history.specs.Reports.{Contents};
ghost use Rattle.reg_verify.specs.Stories.{AreStory};
ghost use Rattle.reg_verify.specs.StoryLaws.{Act, AreActs, IsOneMemory};

/// A story is one memory: the operations of all its orders, chapter by chapter and each chapter without its opening,
/// have the answers that one memory gives, all zeros at first.
pub fn a_story_is_one_memory()
    ensures { (reports : List Contents) (first : Contents) (acts : List Act) → AreStory reports → IsAt reports 0 first
        → AreActs [] reports acts → IsOneMemory first.shape.registers acts }
{}
