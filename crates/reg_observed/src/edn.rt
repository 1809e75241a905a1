//! Reading a history of EDN.
ghost use Rattle.std.specs.Prelude.{◌≡◌, ◌⊎◌, ℕ, [], List, Ok, Err, IfOk, IfErr, OnOk};
ghost use Rattle.reg_observed.specs.Edn.{at_start, begins_edn as begins_edn_in, begins_form as begins_form_in, behind};
ghost use Rattle.reg_observed.specs.Edn.{behind_blanks as behind_blanks_of, byte_does, byte_in, edn_tells};
ghost use Rattle.reg_observed.specs.Edn.{end_word as end_word_in, is_blank as is_blank_byte, is_listed as is_listed_at};
ghost use Rattle.reg_observed.specs.Edn.{is_rest as is_rest_at, is_whole as is_whole_in};
ghost use Rattle.reg_observed.specs.Edn.{line_behind as line_behind_byte, told_by, word_in};
ghost use Rattle.reg_observed.specs.EdnWords.{json_text};
ghost use Rattle.reg_observed.specs.Reading.{AreEvents};
ghost use Rattle.reg_observed.specs.Told.{Gives, Telling};
ghost use Rattle.reg_observed.specs.declared.faults.Why.{Why as AnyWhy};

use crate::edn_bytes::{Does, Mode, turn_at};
use crate::edn_entries::{Draft, Listing};
use crate::edn_says::read_entry;
use crate::edn_words::{push_control, quoted, word_in_json};
use crate::faults::{ReadFault, Untold, Why};
use crate::heard::Heard;
use crate::reading::add;
use crate::told::Told;
use std::alloc::Global;
use std::marker::Model;

/// A reader of EDN within its text.
#[derive(Drop)]
struct Scan {
    /// Where the next byte stands.
    mode: Mode,
    /// The word or the string that is being read.
    word: Vec<u8>,
    draft: Draft,
}

impl Model for Scan {
    ghost use Rattle.reg_observed.specs.Edn.{Scanned};

    ghost Value = { Scanned };

    ghost view = { λ s. record { mode = s.mode; word = s.word.items; draft = s.draft } };
}

fn is_rest(mode: Mode) -> bool
    ensures { result ≡ is_rest_at mode }
{
    mode == Mode::Between || mode == Mode::Comment
}

fn is_listed(listing: Listing) -> bool
    ensures { result ≡ is_listed_at listing }
{
    listing == Listing::Listed
}

impl Scan {
    fn new(global: Global) -> Scan
        ensures { result ≡ at_start }
    {
        Scan {
            mode: Mode::Between,
            word: Vec::new(global),
            draft: Draft::new(global),
        }
    }

    /// The word or the string is a form, which has this text in JSON.
    fn put(&mut self, text: &[u8]) -> Result<(), Untold>
        ensures { Gives (λ _. self.new) result (word_in text.now self.old) }
    {
        self.draft.put(text)?;
        self.word.clear();
        Ok(())
    }

    /// Ends the word, if it ends here.
    fn end_word(&mut self, global: Global, ends: bool) -> Result<(), Untold>
        ensures { Gives (λ _. self.new) result (end_word_in ends self.old) }
    {
        if ends {
            let json = word_in_json(global, &self.word)?;
            self.put(&json)?;
        }
        Ok(())
    }

    /// Ends the string.
    fn end_string(&mut self, global: Global) -> Result<(), Untold>
        ensures { Gives (λ _. self.new) result (word_in (json_text self.old.word) self.old) }
    {
        let json = quoted(global, &self.word)?;
        self.put(&json)
    }

    /// Does what the byte does.
    fn obey(&mut self, global: Global, does: Does, byte: u8) -> Result<(), Untold>
        ensures { Gives (λ _. self.new) result (byte_does does byte self.old) }
    {
        match does {
            Does::Nothing => Ok(()),
            Does::Keep => Ok(self.word.push(byte)?),
            Does::Code => Ok(push_control(&mut self.word, byte)?),
            Does::EndString => self.end_string(global),
            Does::Open(bracket) => self.draft.open_bracket(bracket),
            Does::Close(bracket) => self.draft.close_bracket(bracket),
            Does::Refuse => Err(Untold::Line(Why::BadForm)),
        }
    }

    /// Takes one more byte.
    #[tactic(auto, unfolding(crate::specs::Edn::byte_in))]
    fn take(&mut self, global: Global, byte: u8) -> Result<(), Untold>
        ensures { Gives (λ _. self.new) result (byte_in byte self.old) }
    {
        let turn = turn_at(self.mode, byte);
        self.end_word(global, turn.ends_word)?;
        self.obey(global, turn.does, byte)?;
        self.mode = turn.next;
        Ok(())
    }

    /// Takes one more byte, and gives what is told by it: of an entry that it ends.
    fn tell(&mut self, global: Global, byte: u8) -> Result<Option<Told>, Untold>
        ensures told { Gives (λ o. o) result (told_by self.old (byte_in byte self.old)) }
        ensures behind { OnOk result (self.new ≡ behind self.old (byte_in byte self.old)) }
    {
        let was_inside = self.draft.inside;
        self.take(global, byte)?;
        if was_inside && !self.draft.inside {
            return read_entry(global, &self.draft.json);
        }
        Ok(None)
    }

    /// Whether nothing is begun that has no end.
    fn is_whole(&self) -> bool
        ensures { result ≡ is_whole_in self.now }
    {
        is_rest(self.mode) && !self.draft.inside && !is_listed(self.draft.listing)
    }
}

/// The number of the line on which the next byte stands.
fn line_behind(line: u32, byte: u8) -> u32
    ensures { result ≡ line_behind_byte line byte }
{
    if byte == b'\n' {
        line.saturating_add(1)
    } else {
        line
    }
}

/// What the byte tells, which stands on the line of this number.
fn tell(global: Global, line: u32, scan: &mut Scan, byte: u8) -> Result<Option<Told>, ReadFault>
    ensures told { IfOk result (λ o. told_by scan.old (byte_in byte scan.old) ≡ Ok o) }
    ensures behind { OnOk result (scan.new ≡ behind scan.old (byte_in byte scan.old)) }
    ensures why { IfErr result
        (λ f. (f ≡ ReadFault.OutOfMemory)
        ⊎ ((why : AnyWhy) × (f ≡ ReadFault.Line line why) × (told_by scan.old (byte_in byte scan.old) ≡ Err why))) }
{
    match scan.tell(global, byte) {
        Ok(told) => Ok(told),
        Err(Untold::Line(why)) => Err(ReadFault::Line { line, why }),
        Err(Untold::OutOfMemory) => Err(ReadFault::OutOfMemory),
    }
}

/// Adds all that the text tells.
fn hear(global: Global, text: &[u8], heard: &mut Heard) -> Result<(), ReadFault>
    requires { heard.old.events.items ≡ [] }
    ensures read { OnOk result
        ((told : List (ℕ × Telling)) × (edn_tells text.now ≡ Ok told)
        × AreEvents heard.new.words told heard.new.events.items) }
    ensures refused { IfErr result
        (λ f. (f ≡ ReadFault.OutOfMemory)
        ⊎ ((line : ℕ) × (why : AnyWhy) × (f ≡ ReadFault.Line line why) × (edn_tells text.now ≡ Err (line, why)))) }
{
    let mut scan = Scan::new(global);
    let mut line = 1u32;
    for byte in text {
        match tell(global, line, &mut scan, *byte) {
            Ok(told) => add(heard, line, told)?,
            Err(fault) => return Err(fault),
        }
        line = line_behind(line, *byte);
    }
    if scan.is_whole() {
        Ok(())
    } else {
        Err(ReadFault::Line {
            line,
            why: Why::Unfinished,
        })
    }
}

/// The history that the entries of a text of EDN tell, each by itself or all in one vector. The number of an entry is
/// that of the line on which it ends.
///
/// # Errors
///
/// `Line` names the first line with which no such text goes on, and why.
pub fn read_edn(global: Global, text: &str) -> Result<Heard, ReadFault>
    ensures read { IfOk result
        (λ h. (told : List (ℕ × Telling)) × (edn_tells text.now ≡ Ok told) × AreEvents h.words told h.events.items) }
    ensures refused { IfErr result
        (λ f. (f ≡ ReadFault.OutOfMemory)
        ⊎ ((line : ℕ) × (why : AnyWhy) × (f ≡ ReadFault.Line line why) × (edn_tells text.now ≡ Err (line, why)))) }
{
    let mut heard = Heard::new(global);
    hear(global, text.as_bytes(), &mut heard)?;
    Ok(heard)
}

fn is_blank(byte: u8) -> bool
    ensures { result ≡ is_blank_byte byte }
{
    byte <= 32 || byte == b','
}

/// The text behind the blanks before it.
fn behind_blanks(text: &[u8]) -> &[u8]
    ensures { result.now ≡ behind_blanks_of text.now }
{
    for at in 0..text.len() {
        if !is_blank(text[at]) {
            return &text[at..];
        }
    }
    &[]
}

fn begins_form(text: &[u8]) -> bool
    ensures { result ≡ begins_form_in text.now }
{
    text.starts_with(b"[")
        || text.starts_with(b"#")
        || text.starts_with(b";")
        || (text.starts_with(b"{") && behind_blanks(&text[1..]).starts_with(b":"))
}

/// Whether the text is meant as EDN: its first byte that is no blank is `[`, `#` or `;`, or `{` and then `:`.
pub(crate) fn begins_edn(text: &[u8]) -> bool
    ensures { result ≡ begins_edn_in text.now }
{
    begins_form(behind_blanks(text))
}
