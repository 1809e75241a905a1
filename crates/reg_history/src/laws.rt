//! The law of the texts of reports. It is a function that does nothing: its contract is the law.
ghost use Rattle.std.specs.Prelude.{List, ℕ, ◌≢◌};
ghost use Rattle.reg_history.specs.Reports.{Contents, IsTextOf, text_in};
ghost use Rattle.reg_history.specs.declared.versions.Version.{Version};

/// No text spells a report in one version and a report in another.
pub fn no_text_has_two_versions()
    ensures { (text : List ℕ) (v w : Version) (r s : Contents) → v ≢ w → IsTextOf text (text_in v r)
        → IsTextOf text (text_in w s) → ⊥ }
{}
