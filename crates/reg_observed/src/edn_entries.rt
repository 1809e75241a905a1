//! What stands of an entry of EDN, as JSON, and of the text around it.
ghost use Rattle.std.specs.Prelude.{◌≡◌, [], Ok, true, false};
ghost use Rattle.reg_observed.specs.EdnEntries.{begun, close_in, close_last as close_last_in};
ghost use Rattle.reg_observed.specs.EdnEntries.{close_outside as close_outside_of, closes, closing as closing_of};
ghost use Rattle.reg_observed.specs.EdnEntries.{end_entry as end_entry_of, form_in, named_next, opening as opening_of};
ghost use Rattle.reg_observed.specs.EdnEntries.{open_in, open_inside as open_inside_of};
ghost use Rattle.reg_observed.specs.EdnEntries.{open_outside as open_outside_of, separator as separator_of};
ghost use Rattle.reg_observed.specs.Told.{Gives};

use crate::edn_bytes::Bracket;
use crate::faults::{Untold, Why};
use std::alloc::Global;
use std::marker::Model;

/// How many brackets of an entry may be open at once. In JSON each is at most two levels, and the kit reads 127.
pub const MOST_OPEN: usize = 60;

/// Where entries stand.
#[derive(Clone, Copy, PartialEq, Eq)]
pub(crate) enum Listing {
    /// Nothing was read yet.
    Fresh,
    /// They stand by themselves.
    Bare,
    /// They stand in a vector.
    Listed,
    /// They stood in a vector, which is closed.
    Closed,
}

/// What stands of the entry that is being read, or of the last one.
#[derive(Drop)]
pub(crate) struct Draft {
    pub listing: Listing,
    /// Whether an entry is being read.
    pub inside: bool,
    /// The brackets that are open in the entry, the innermost last.
    pub brackets: Vec<Bracket>,
    /// Whether a key of the entry stands without its value.
    pub named: bool,
    /// Whether nothing stands behind the last bracket that was opened.
    pub fresh: bool,
    /// The entry in JSON, as far as it was read.
    pub json: Vec<u8>,
}

impl Model for Draft {
    ghost use Rattle.reg_observed.specs.EdnEntries.{Drafted};

    ghost Value = { Drafted };

    ghost view = { λ d.
        record {
          listing = d.listing;
          inside = d.inside;
          brackets = d.brackets.items;
          named = d.named;
          fresh = d.fresh;
          json = d.json.items;
        } };
}

/// Whether a bracket closes one that is open.
fn is_pair(close: Bracket, opened: Bracket) -> bool
    ensures { result ≡ closes close opened }
{
    match close {
        Bracket::Round => opened == Bracket::Round,
        Bracket::Square => opened == Bracket::Square,
        Bracket::Curly => opened == Bracket::Curly || opened == Bracket::Set,
        Bracket::Set => false,
    }
}

/// How a form between brackets begins in JSON: a vector and a list as an array, a map and a set as an object with an
/// array, so that they are no pair of values.
fn opening(bracket: Bracket) -> &'static [u8]
    ensures { result.now ≡ opening_of bracket }
{
    match bracket {
        Bracket::Round | Bracket::Square => b"[",
        Bracket::Curly | Bracket::Set => b"{\"\":[",
    }
}

/// How it ends.
fn closing(bracket: Bracket) -> &'static [u8]
    ensures { result.now ≡ closing_of bracket }
{
    match bracket {
        Bracket::Round | Bracket::Square => b"]",
        Bracket::Curly | Bracket::Set => b"]}",
    }
}

impl Draft {
    /// Nothing was read yet.
    pub(crate) fn new(global: Global) -> Draft
        ensures { result
            ≡ record {
              listing = Listing.Fresh;
              inside = false;
              brackets = [];
              named = false;
              fresh = true;
              json = [];
            } }
    {
        Draft {
            listing: Listing::Fresh,
            inside: false,
            brackets: Vec::new(global),
            named: false,
            fresh: true,
            json: Vec::new(global),
        }
    }

    /// What stands before the next form.
    fn separator(&self) -> &'static [u8]
        ensures { result.now ≡ separator_of self.now }
    {
        if self.fresh {
            b""
        } else if self.named && self.brackets.is_empty() {
            b":"
        } else {
            b","
        }
    }

    /// Whether a key of the entry stands without its value behind one more form, where so many brackets are open.
    fn named_behind(&self, depth: usize) -> bool
        ensures { result ≡ named_next depth self.now.named }
    {
        if depth == 0 { !self.named } else { self.named }
    }

    /// Adds a form, which has this text in JSON.
    pub(crate) fn put(&mut self, text: &[u8]) -> Result<(), Untold>
        ensures { Gives (λ _. self.new) result (form_in text.now self.old) }
    {
        if !self.inside {
            return Err(Untold::Line(Why::BadEntry));
        }
        let named = self.named_behind(self.brackets.len());
        let separator = self.separator();
        self.json.extend_from_slice(separator)?;
        self.json.extend_from_slice(text)?;
        self.named = named;
        self.fresh = false;
        Ok(())
    }

    /// Opens a bracket of the entry.
    fn open_inside(&mut self, bracket: Bracket) -> Result<(), Untold>
        ensures { Gives (λ _. self.new) result (open_inside_of bracket self.old) }
    {
        if self.brackets.len() >= MOST_OPEN {
            return Err(Untold::Line(Why::TooDeep));
        }
        let separator = self.separator();
        self.json.extend_from_slice(separator)?;
        self.json.extend_from_slice(opening(bracket))?;
        self.brackets.push(bracket)?;
        self.fresh = true;
        Ok(())
    }

    /// Begins an entry.
    fn begin(&mut self, listing: Listing) -> Result<(), Untold>
        ensures { Gives (λ _. self.new) result (Ok (begun listing)) }
    {
        self.json.clear();
        self.json.push(b'{')?;
        self.brackets.clear();
        self.listing = listing;
        self.inside = true;
        self.named = false;
        self.fresh = true;
        Ok(())
    }

    /// Opens a bracket outside of entries: it begins an entry, or the vector in which they stand.
    fn open_outside(&mut self, bracket: Bracket) -> Result<(), Untold>
        ensures { Gives (λ _. self.new) result (open_outside_of bracket self.old.listing self.old) }
    {
        match (bracket, self.listing) {
            (Bracket::Curly, Listing::Fresh | Listing::Bare) => self.begin(Listing::Bare),
            (Bracket::Curly, Listing::Listed) => self.begin(Listing::Listed),
            (Bracket::Square, Listing::Fresh) => {
                self.listing = Listing::Listed;
                Ok(())
            }
            _ => Err(Untold::Line(Why::BadEntry)),
        }
    }

    /// Opens a bracket.
    pub(crate) fn open_bracket(&mut self, bracket: Bracket) -> Result<(), Untold>
        ensures { Gives (λ _. self.new) result (open_in bracket self.old) }
    {
        if self.inside {
            self.open_inside(bracket)
        } else {
            self.open_outside(bracket)
        }
    }

    /// Closes the innermost bracket of the entry.
    fn close_last(&mut self, close: Bracket, opened: Bracket) -> Result<(), Untold>
        ensures { Gives (λ _. self.new) result (close_last_in close opened self.old) }
    {
        if !is_pair(close, opened) {
            return Err(Untold::Line(Why::BadBracket));
        }
        let _ = self.brackets.pop();
        self.json.extend_from_slice(closing(opened))?;
        self.named = self.named_behind(self.brackets.len());
        self.fresh = false;
        Ok(())
    }

    /// Closes the entry.
    fn end_entry(&mut self, close: Bracket) -> Result<(), Untold>
        ensures { Gives (λ _. self.new) result (end_entry_of close self.old) }
    {
        if close != Bracket::Curly {
            return Err(Untold::Line(Why::BadBracket));
        }
        self.json.push(b'}')?;
        self.inside = false;
        Ok(())
    }

    /// Closes the vector in which entries stand.
    fn close_outside(&mut self, close: Bracket) -> Result<(), Untold>
        ensures { Gives (λ _. self.new) result (close_outside_of close self.old.listing self.old) }
    {
        if close != Bracket::Square || self.listing != Listing::Listed {
            return Err(Untold::Line(Why::BadBracket));
        }
        self.listing = Listing::Closed;
        Ok(())
    }

    /// Closes a bracket.
    pub(crate) fn close_bracket(&mut self, close: Bracket) -> Result<(), Untold>
        ensures { Gives (λ _. self.new) result (close_in close self.old) }
    {
        if !self.inside {
            return self.close_outside(close);
        }
        match self.brackets.last().copied() {
            Some(opened) => self.close_last(close, opened),
            None => self.end_entry(close),
        }
    }
}
