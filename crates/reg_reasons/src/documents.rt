//! Why a text is no workload.
use crate::forms::{FRONTS, KEYS, kind_of_key, range_of};
use crate::saying::Notes;
use crate::scanning::{after, is_register, place_of};
use crate::stops::{Documents, explain_stop};
use crate::toml_steps::starts_text;
use crate::toml_values::{Entry, items_of, kind_of, read_entries, text_of};
use crate::toml_words::{integer_of, word_of};
use crate::wanting::{NAME_FORM, NAME_TAKEN};
use crate::word_lines::{Kind, WordLine, names_of};
use reg_base::limits::{MOST_OPERATIONS, MOST_PROCESSES, MOST_REGISTERS};
use reg_inputs::{Key, WorkloadFault};
use std::alloc::{AllocError, Allocator};

/// Puts that a key is missing.
fn put_missing<A: Allocator + Copy>(notes: &mut Notes<'_, A>, key: Key) {
    notes.put_all(&[key.name(), " is ", kind_of_key(key), ", and no line has it"]);
    if key == Key::Front {
        notes.put(": ");
        notes.put_words(FRONTS);
    }
    notes.put("\n");
}

/// Whether a name is the text of one of these.
fn is_there(values: &[&[u8]], name: &[u8]) -> bool {
    for value in values {
        if text_of(value) == name {
            return true;
        }
    }
    false
}

/// Whether a text is told by its signs alone. Of one with an escape it isn't made out what it is.
fn is_plain(value: &[u8]) -> bool {
    !value.starts_with(b"\"") || !text_of(value).contains(&b'\\')
}

fn put_kind<A: Allocator + Copy>(notes: &mut Notes<'_, A>, value: &[u8]) {
    notes.put_all(&[" is of the kind ", kind_of(value)]);
}

/// The first item that is no text, and its place.
fn odd_item<'a>(values: &[&'a [u8]]) -> Option<(usize, &'a [u8])> {
    for (place, value) in values.iter().enumerate() {
        if !starts_text(value) {
            return Some((place, *value));
        }
    }
    None
}

/// Puts the first item of an array that is no text, be it that of a script. False where all are texts.
fn put_odd_item<A: Allocator + Copy>(
    notes: &mut Notes<'_, A>,
    array: &[u8],
    script: Option<u64>,
) -> Result<bool, AllocError> {
    let items = items_of(notes.alloc, array)?;
    let Some((item, value)) = odd_item(items.as_slice()) else {
        return Ok(false);
    };
    if let Some(script) = script {
        notes.put_with(": of script {}", &[script]);
    }
    notes.put_with(": item {}", &[item as u64]);
    put_kind(notes, value);
    Ok(true)
}

/// Puts which script of an array is no array of texts.
fn put_odd_script<A: Allocator + Copy>(
    notes: &mut Notes<'_, A>,
    array: &[u8],
) -> Result<(), AllocError> {
    let scripts = items_of(notes.alloc, array)?;
    for (script, value) in scripts.as_slice().iter().enumerate() {
        let script = script as u64;
        if !value.starts_with(b"[") {
            notes.put_with(": script {}", &[script]);
            put_kind(notes, value);
            break;
        }
        if put_odd_item(notes, value, Some(script))? {
            break;
        }
    }
    Ok(())
}

/// What stands from the item at a place of an array on, and nothing where it isn't there.
fn item_at<A: Allocator + Copy>(alloc: A, array: &[u8], place: usize) -> Result<&[u8], AllocError> {
    let items = items_of(alloc, array)?;
    Ok(items.get(place).copied().unwrap_or(b""))
}

/// Puts how many registers or scripts a workload has, or operations a script, where a key has `count` of them.
fn put_count<A: Allocator + Copy>(notes: &mut Notes<'_, A>, key: Key, count: u64) {
    let (text, most) = match key {
        Key::Registers => (
            "a workload has 1 to {} registers, and here are {}",
            MOST_REGISTERS,
        ),
        _ if count > 0 && count <= MOST_PROCESSES as u64 => {
            ("a script has at most {} operations", MOST_OPERATIONS)
        }
        _ => (
            "a workload has 1 to {} scripts, and here are {}",
            MOST_PROCESSES,
        ),
    };
    notes.put_with(text, &[most as u64, count]);
}

/// A document that says no workload: its text, and the keys that stand in it.
#[derive(Clone, Copy)]
struct Document<'a> {
    text: &'a [u8],
    entries: &'a [Entry<'a>],
}

impl<'a> Document<'a> {
    /// A key with its value.
    fn entry(&self, key: Key) -> Option<&'a Entry<'a>> {
        let name = key.name().as_bytes();
        for entry in self.entries {
            if entry.name == name {
                return Some(entry);
            }
        }
        None
    }

    /// What stands from the value of a key on, and nothing where no line has it.
    fn value(&self, key: Key) -> &'a [u8] {
        self.entry(key).map_or(b"", |entry| entry.value)
    }

    /// Puts the line of a key.
    fn put_key_place<A: Allocator + Copy>(&self, notes: &mut Notes<'_, A>, key: Key) {
        if let Some(entry) = self.entry(key) {
            notes.put_text_place(self.text, entry.place);
        }
    }

    /// Puts the line of what stands from a place on.
    fn put_place<A: Allocator + Copy>(&self, notes: &mut Notes<'_, A>, from: &[u8]) {
        notes.put_text_place(self.text, self.text.len().saturating_sub(from.len()));
    }

    /// Puts the first key that no workload has.
    fn explain_unknown_key<A: Allocator + Copy>(&self, notes: &mut Notes<'_, A>) {
        for entry in self.entries {
            if place_of(KEYS, entry.name).is_none() {
                notes.put_text_place(self.text, entry.place);
                notes.put_wanted_words(KEYS, entry.name);
                return notes.put("\n");
            }
        }
    }

    fn explain_kind<A: Allocator + Copy>(
        &self,
        notes: &mut Notes<'_, A>,
        key: Key,
    ) -> Result<(), AllocError> {
        let value = self.value(key);
        self.put_key_place(notes, key);
        notes.put_all(&[key.name(), " is ", kind_of_key(key)]);
        match key {
            Key::Registers if value.starts_with(b"[") => {
                put_odd_item(notes, value, None)?;
            }
            Key::Scripts if value.starts_with(b"[") => put_odd_script(notes, value)?,
            _ => {
                notes.put(", and this");
                put_kind(notes, value);
            }
        }
        notes.put("\n");
        Ok(())
    }

    /// Puts the name at a place of an array, if it is misspelt, or stands before. False where it is neither.
    fn put_name<A: Allocator + Copy>(
        &self,
        notes: &mut Notes<'_, A>,
        values: &[&[u8]],
        outer: usize,
    ) -> bool {
        let Some((before, [value, ..])) = values.split_at_checked(outer) else {
            return false;
        };
        let name = text_of(value);
        let is_double = is_there(before, name);
        if !is_double && is_register(name) {
            return false;
        }
        self.put_place(notes, value);
        let fault = if is_double { NAME_TAKEN } else { NAME_FORM };
        notes.put_quoted(name, fault);
        notes.put("\n");
        true
    }

    /// Puts the first name of an array that is misspelt, or stands before. Those with escapes come last.
    fn explain_names<A: Allocator + Copy>(&self, notes: &mut Notes<'_, A>, values: &[&[u8]]) {
        for are_plain in [true, false] {
            for (outer, value) in values.iter().enumerate() {
                if is_plain(value) == are_plain && self.put_name(notes, values, outer) {
                    return;
                }
            }
        }
    }

    /// Puts how many items a key's array has.
    fn explain_count<A: Allocator + Copy>(
        &self,
        notes: &mut Notes<'_, A>,
        key: Key,
    ) -> Result<(), AllocError> {
        let values = items_of(notes.alloc, self.value(key))?;
        let count = values.len() as u64;
        if key == Key::Registers && count > 0 && count <= MOST_REGISTERS as u64 {
            self.explain_names(notes, values.as_slice());
            return Ok(());
        }
        self.put_key_place(notes, key);
        put_count(notes, key, count);
        notes.put("\n");
        Ok(())
    }

    /// Puts why a key's value isn't one of those that it may be.
    fn explain_value<A: Allocator + Copy>(&self, notes: &mut Notes<'_, A>, key: Key) {
        let value = self.value(key);
        self.put_key_place(notes, key);
        if key == Key::Front {
            notes.put_wanted_words(FRONTS, text_of(value));
        } else {
            let (is_negative, number) = integer_of(word_of(value)).unwrap_or((false, 0));
            let words = if is_negative { "-{}" } else { "{}" };
            notes.put_with(words, &[number]);
            notes.put_out_of_range(range_of(key));
        }
        notes.put("\n");
    }

    /// The names of the registers.
    fn names<A: Allocator + Copy>(&self, alloc: A) -> Result<Vec<&'a [u8], A>, AllocError> {
        let mut names = items_of(alloc, self.value(Key::Registers))?;
        for name in names.as_mut_slice() {
            *name = text_of(name);
        }
        Ok(names)
    }

    /// Puts the place at which an operation doesn't fit: `at` bytes behind the quote before it, where none is escaped.
    fn put_op_place<A: Allocator + Copy>(&self, notes: &mut Notes<'_, A>, value: &[u8], at: usize) {
        let inner = after(value, 1);
        if value.is_empty() {
            self.put_key_place(notes, Key::Scripts);
        } else if inner.starts_with(text_of(value)) {
            self.put_place(notes, after(inner, at));
        } else {
            self.put_place(notes, value);
        }
    }

    /// Puts where an operation doesn't fit, and why. Of names with escapes it isn't made out what they are.
    fn put_op_mismatch<A: Allocator + Copy>(
        &self,
        notes: &mut Notes<'_, A>,
        value: &[u8],
    ) -> Result<(), AllocError> {
        let texts = self.names(notes.alloc)?;
        let Some(names) = names_of(notes.alloc, texts.as_slice())? else {
            self.put_place(notes, value);
            return Ok(());
        };
        let words = WordLine {
            bytes: text_of(value),
            kind: Kind::Operation,
        };
        if let Some(mismatch) = words.mismatch(&names) {
            self.put_op_place(notes, value, mismatch.at);
            notes.put_mismatch(texts.as_slice(), mismatch);
        }
        Ok(())
    }

    fn explain_script<A: Allocator + Copy>(
        &self,
        notes: &mut Notes<'_, A>,
        process: usize,
        place: usize,
    ) -> Result<(), AllocError> {
        let script = item_at(notes.alloc, self.value(Key::Scripts), process)?;
        let value = item_at(notes.alloc, script, place)?;
        self.put_op_mismatch(notes, value)
    }

    /// Puts why it says no workload.
    fn explain<A: Allocator + Copy>(
        &self,
        notes: &mut Notes<'_, A>,
        fault: WorkloadFault,
    ) -> Result<(), AllocError> {
        match fault {
            WorkloadFault::UnknownKey => self.explain_unknown_key(notes),
            WorkloadFault::Missing { key } => put_missing(notes, key),
            WorkloadFault::Kind { key } => return self.explain_kind(notes, key),
            WorkloadFault::Range {
                key: key @ (Key::Registers | Key::Scripts),
            } => return self.explain_count(notes, key),
            WorkloadFault::Range { key } => self.explain_value(notes, key),
            WorkloadFault::Script { process, place } => {
                return self.explain_script(notes, process as usize, place as usize);
            }
            WorkloadFault::Toml | WorkloadFault::OutOfMemory => {}
        }
        Ok(())
    }
}

/// Puts why a text is no workload.
pub fn explain_workload<D: Documents, A: Allocator + Copy>(
    notes: &mut Notes<'_, A>,
    documents: D,
    text: &str,
    fault: WorkloadFault,
) -> Result<(), AllocError> {
    if fault == WorkloadFault::Toml {
        return explain_stop(notes, documents, text);
    }
    let mut entries = Vec::new(notes.alloc);
    read_entries(&mut entries, text.as_bytes())?;
    let document = Document {
        text: text.as_bytes(),
        entries: entries.as_slice(),
    };
    document.explain(notes, fault)
}
