//! Sources of words for what chance decides.
ghost use Rattle.std.specs.Prelude.{◌≡◌, ℕ, false};
ghost use Rattle.reg_base.specs.Words.{says};

/// A source of words of 32 bits.
pub trait Words {
    /// The next word, and the source after it.
    ghost next_word: { Self → ℕ × Self };

    /// The next word.
    fn word(&mut self) -> u32
        ensures { (result, self.new) ≡ next_word self.old };
}

/// Takes the next word, and says whether it is below `below`, modulo 100. So `below` is the odds in a hundred that
/// something happens. At 0 it never does.
pub fn happens<R: Words>(words: &mut R, below: u32) -> bool
    ensures value { result ≡ says below (R.next_word words.old).0 }
    ensures words { words.new ≡ (R.next_word words.old).1 }
    ensures never { below ≡ 0 → result ≡ false }
{
    words.word() % 100 < below
}
