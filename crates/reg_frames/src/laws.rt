//! What holds of the spelling of frames. A function that does nothing: its contract is the law.
ghost use Rattle.std.specs.Prelude.{◌≡◌, ℕ, List};
ghost use Rattle.reg_frames.specs.declared.bodies.Frame.{Frame};
ghost use Rattle.reg_frames.specs.Spelling.{Spells};

/// No frame has two spellings, and no bytes spell two frames.
pub fn one_spelling()
    ensures frame { (f : Frame) (a b : List ℕ) → Spells f a → Spells f b → a ≡ b }
    ensures bytes { (f g : Frame) (bytes : List ℕ) → Spells f bytes → Spells g bytes → f ≡ g }
{}
