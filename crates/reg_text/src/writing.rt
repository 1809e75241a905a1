//! Writing of which all or a first part went out.
ghost use Rattle.std.specs.Prelude.{◌≡◌, ◌≤◌, ◌++◌, length, drop, false, true, MatchResult};
ghost use Rattle.std.specs.Fmt.{decimal};
ghost use Rattle.reg_text.specs.Writing.{Puts, IsWritten};

use itoa::Buffer;
use std::io::Write;

/// The writer failed, and a first part of what it was given went out.
#[derive(Clone, Copy, Debug, PartialEq, Eq)]
pub struct Unwritten;

/// Writes these bytes. It stops at the first write that fails, at one that a signal interrupted too, or that takes
/// nothing.
///
/// # Errors
///
/// `Unwritten` where the writer failed, and then a first part of the bytes went out.
pub fn write_bytes<W: Write>(writer: &mut W, bytes: &[u8]) -> Result<(), Unwritten>
    ensures { IsWritten result (W.contents writer.old) (W.contents writer.new) bytes.now }
{
    let mut rest = bytes;
    for _ in 0..u64::MAX {
        if rest.is_empty() {
            return Ok(());
        }
        match writer.write(rest) {
            Ok(0) => return Err(Unwritten),
            Ok(count) => rest = &rest[count..],
            Err(_) => return Err(Unwritten),
        }
    }
    Err(Unwritten)
}

/// A writer, and whether it has failed. What is put after a failure goes nowhere.
#[derive(Drop)]
pub struct Sink<'a, W> {
    pub writer: &'a mut W,
    pub failed: bool,
}

impl<'a, W: Write> Sink<'a, W> {
    /// A writer that has not failed.
    pub fn new(writer: &'a mut W) -> Sink<'a, W>
        ensures same { result.writer.ghost_name ≡ writer.entry.ghost_name }
        ensures now { result.writer.now ≡ writer.old }
        ensures failed { result.failed ≡ false }
    {
        Sink {
            writer,
            failed: false,
        }
    }

    /// Writes bytes, unless the writer has failed. Where there are none, the writer is not asked. Where it fails here,
    /// what went out is a first part of them.
    #[inline(always)]
    pub fn put(&mut self, bytes: &[u8])
        ensures { Puts W.contents self.old self.new bytes.now }
    {
        if self.failed || bytes.is_empty() {
            return;
        }
        match self.writer.write(bytes) {
            Ok(count) if count == bytes.len() => {}
            Ok(count) => self.put_rest(bytes, count),
            Err(_) => self.failed = true,
        }
    }

    /// Writes what is left of these bytes after a first write took this many of them. It stands apart, so that the
    /// first write is inlined, and bytes of a known number are stored with no call.
    #[cold]
    #[inline(never)]
    fn put_rest(&mut self, bytes: &[u8], taken: usize)
        requires going { self.old.failed ≡ false }
        requires taken { taken ≤ length bytes.now }
        ensures { Puts W.contents self.old self.new (drop taken bytes.now) }
    {
        if taken == 0 {
            self.failed = true;
            return;
        }
        self.failed = write_bytes(self.writer, &bytes[taken..]).is_err();
    }

    /// Whether all that was put went out.
    ///
    /// # Errors
    ///
    /// `Unwritten` where the writer has failed, and a first part went out.
    pub fn finish(&self) -> Result<(), Unwritten>
        ensures { MatchResult result (λ _. self.now.failed ≡ false) (λ _. self.now.failed ≡ true) }
    {
        if self.failed { Err(Unwritten) } else { Ok(()) }
    }
}

/// Puts words, and after them a number in decimal.
pub fn put_number<W: Write>(sink: &mut Sink<'_, W>, words: &str, number: u64)
    ensures { Puts W.contents sink.old sink.new (words.now ++ decimal number) }
{
    let mut digits = Buffer::new();
    sink.put(words.as_bytes());
    sink.put(digits.format(number).as_bytes());
}
