//! The first word of an event's line, or of an operation, that doesn't fit, and where on the line it is shown. Which
//! word it is, and what may stand in its place, the readers say.
ghost use Rattle.std.specs.Prelude.{◌≡◌, None, IfOk, IfSome};
ghost use Rattle.reg_base.specs.Names.{names_fault};

use crate::forms::{EVENTS, OPERATIONS};
use crate::lines_at::word_at;
use crate::scanning::{after, front_of, token_of};
use crate::wanting::{Mismatch, Quantity, Range, Rules, Wanted as Shown};
use reg_base::Names;
use reg_inputs::{Misfit, Rule, Wanted, op_misfit, read_event};
use reg_text::{cut_at, is_numeral, owned};
use std::alloc::{AllocError, Allocator};

/// What a line of words is to be.
#[derive(Clone, Copy)]
pub enum Kind {
    Event,
    Operation,
}

/// A line of words that are parted by single spaces.
#[derive(Clone, Copy)]
pub struct WordLine<'a> {
    pub bytes: &'a [u8],
    pub kind: Kind,
}

/// The names of registers, where these texts are such.
pub fn names_of<A: Allocator + Copy>(
    alloc: A,
    texts: &[&[u8]],
) -> Result<Option<Names<A>>, AllocError>
    ensures { IfOk result (λ o. IfSome o (λ names. names_fault names ≡ None)) }
{
    let mut names = Vec::new(alloc);
    for text in texts {
        let Some(name) = owned(alloc, text)? else {
            return Ok(None);
        };
        names.push(name)?;
    }
    Ok(Names::new(names).ok())
}

/// The names, one after the other.
pub fn listed<A: Allocator + Copy>(
    alloc: A,
    names: &Names<A>,
) -> Result<Vec<&[u8], A>, AllocError> {
    let mut list = Vec::new(alloc);
    for register in 0..=u16::MAX {
        let Some(name) = names.name(register) else {
            break;
        };
        list.push(name.as_bytes())?;
    }
    Ok(list)
}

/// How many spaces there are.
fn spaces_in(bytes: &[u8]) -> usize {
    bytes.iter().filter(|byte| **byte == b' ').count()
}

/// Where the first sign stands that is neither printed nor a space; the end where there is none.
fn first_unprinted(bytes: &[u8]) -> usize {
    bytes
        .iter()
        .position(|byte| !byte.is_ascii_graphic() && *byte != b' ')
        .unwrap_or(bytes.len())
}

/// What stands behind the word at the start, from the space on.
fn behind_word(bytes: &[u8]) -> &[u8] {
    match cut_at(bytes, b' ') {
        Some((word, _)) => after(bytes, word.len()),
        None => b"",
    }
}

/// What a number of a line is, and the range that it has.
fn range_of(wanted: Wanted) -> Option<Range> {
    let quantity = match wanted {
        Wanted::Process => Quantity::Process,
        Wanted::Frame => Quantity::Frame,
        Wanted::Value => Quantity::Value,
        _ => return None,
    };
    let rules = Rules {
        names: &[],
        is_older: false,
        is_strict: true,
    };
    Some(rules.range(quantity))
}

impl<'a> WordLine<'a> {
    /// The first word of some bytes that doesn't fit.
    fn misfit_of<A: Allocator + Copy>(&self, bytes: &[u8], names: &Names<A>) -> Option<Misfit>
        requires { names_fault names.now ≡ None }
    {
        match self.kind {
            Kind::Event => read_event(bytes, names).err(),
            Kind::Operation => op_misfit(bytes, names),
        }
    }

    /// Whether the operation whose value would stand at a place is a read.
    fn reads_before(&self, place: usize) -> bool {
        let op = word_at(self.bytes, place.saturating_sub(2));
        after(self.bytes, op).starts_with(b"read ")
    }

    /// What is wanted where the line ends too early.
    fn missing(&self, misfit: Misfit) -> Shown {
        match (misfit.wanted, range_of(misfit.wanted)) {
            (_, Some(range)) => Shown::Told(range.what, " is missing"),
            (Wanted::Register, _) => Shown::Told("a register", " is missing"),
            _ => Shown::Words(OPERATIONS),
        }
    }

    /// What is wanted in the place of a word.
    fn shown(&self, misfit: Misfit, found: &[u8]) -> Shown {
        let token = token_of(found);
        match misfit.wanted {
            Wanted::Event => Shown::Words(EVENTS),
            Wanted::Operation => Shown::Words(OPERATIONS),
            Wanted::Register if misfit.rule == Rule::Form => Shown::Text("a register"),
            Wanted::Register => Shown::Register,
            Wanted::End if token.starts_with(b"#") => {
                Shown::Told("a comment stands on a line of its own", "")
            }
            Wanted::End if is_numeral(token) && self.reads_before(misfit.word) => {
                Shown::Told("a read takes no value", "")
            }
            other => range_of(other).map_or(Shown::Text("the end of the line"), Shown::Number),
        }
    }

    /// The mismatch of an empty word: where it is too much, or another space stands before it, at the space.
    fn of_no_word(&self, misfit: Misfit, at: usize) -> Mismatch<'a> {
        let before = at.saturating_sub(1);
        let found = after(self.bytes, at);
        let spaces = after(self.bytes, before);
        let (at, found, wanted) = if misfit.wanted == Wanted::End {
            (before, spaces, Shown::Text("the end of the line"))
        } else if at > 0 && !found.is_empty() {
            (at, spaces, Shown::Text("one space"))
        } else {
            (at, found, self.shown(misfit, found))
        };
        Mismatch { at, found, wanted }
    }

    /// The mismatch of a sign that is not printed, where the words up to it fit: no line has such signs.
    fn of_sign<A: Allocator + Copy>(&self, names: &Names<A>, at: usize) -> Option<Mismatch<'a>>
        requires { names_fault names.now ≡ None }
    {
        let before = front_of(self.bytes, at);
        let found = after(self.bytes, at);
        let wanted = match self.misfit_of(before, names) {
            None => Shown::Text("the end of the line"),
            Some(other) if other.word > spaces_in(before) => Shown::Text("one space"),
            Some(other) if before.is_empty() || before.ends_with(b" ") => self.shown(other, found),
            Some(_) => return None,
        };
        Some(Mismatch { at, found, wanted })
    }

    /// The first place that doesn't fit.
    pub fn mismatch<A: Allocator + Copy>(&self, names: &Names<A>) -> Option<Mismatch<'a>>
        requires { names_fault names.now ≡ None }
    {
        let misfit = self.misfit_of(self.bytes, names)?;
        let at = word_at(self.bytes, misfit.word);
        let found = after(self.bytes, at);
        let sign = first_unprinted(self.bytes);
        if sign < self.bytes.len().saturating_sub(behind_word(found).len())
            && let Some(mismatch) = self.of_sign(names, sign)
        {
            return Some(mismatch);
        }
        if spaces_in(self.bytes) < misfit.word {
            let wanted = self.missing(misfit);
            return Some(Mismatch { at, found, wanted });
        }
        if found.is_empty() || found.starts_with(b" ") {
            return Some(self.of_no_word(misfit, at));
        }
        Some(Mismatch {
            at,
            found,
            wanted: self.shown(misfit, found),
        })
    }
}
