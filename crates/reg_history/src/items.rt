//! Items of the lists of a report: the operations of an order, and points.
ghost use Rattle.std.specs.Prelude.{◌≡◌, ◌↔◌, ℕ, List, Some, IfSome, IsTrue};
ghost use Rattle.reg_text.specs.Lines.{AllFit};
ghost use Rattle.reg_history.specs.declared.versions.Version.{Version};

use crate::report_faults::ReadWhy;
use crate::versions::Version;

/// An item of a list of a report, with a line of its own.
pub trait Listed: Copy {
    /// The line that spells the item.
    ghost line_of: { Self → List ℕ };

    /// The item is within the limits of a report of this version.
    ghost Fits: { Version → Self → Type 0 };

    /// The line has the form of an item's, whatever the limits.
    ghost HasForm: { List ℕ → Type 0 };

    /// The item of a line. None where the line is no item's, and then `why_unlisted` says why.
    fn read(line: &[u8], version: Version) -> Option<Self>
        ensures read { IfSome result (λ x. (line.now ≡ line_of x) × Fits version x) }
        ensures whole { (x : Self) → Fits version x → line.now ≡ line_of x → result ≡ Some x };

    /// Whether a line has the form of an item's, whatever the limits.
    fn has_form(line: &[u8]) -> bool
        ensures { IsTrue result ↔ HasForm line.now };

    /// Whether its numbers are within the limits of a report of this version.
    fn fits(self, version: Version) -> bool
        ensures { IsTrue result ↔ Fits version self };
}

/// Why a line is no item.
pub fn why_unlisted<T: Listed>(line: &[u8]) -> ReadWhy
    ensures range { T.HasForm line.now → result ≡ ReadWhy.Range }
    ensures form { (¬ T.HasForm line.now) → result ≡ ReadWhy.Form }
{
    if T::has_form(line) {
        ReadWhy::Range
    } else {
        ReadWhy::Form
    }
}

/// Whether each item is within the limits of a report of this version.
pub fn all_fit<T: Listed>(items: &[T], version: Version) -> bool
    ensures { IsTrue result ↔ AllFit (λ _ x. T.Fits version x) items.now }
{
    for item in items {
        if !item.fits(version) {
            return false;
        }
    }
    true
}
