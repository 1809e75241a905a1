//! The readers that the tests hand to a command.
use std::io;
use std::io::Read;

/// Gives a text in two parts, at most `most` bytes a read.
#[derive(Drop)]
pub(crate) struct Source<'a> {
    pub(crate) bytes: &'a [u8],
    /// What comes after these bytes.
    pub(crate) rest: &'a [u8],
    /// The most bytes of a read.
    pub(crate) most: usize,
}

/// A text in two parts, which is read whole.
pub(crate) fn whole<'a>(bytes: &'a [u8], rest: &'a [u8]) -> Source<'a> {
    Source {
        bytes,
        rest,
        most: usize::MAX,
    }
}

impl Read for Source<'_> {
    fn read(&mut self, buf: &mut [u8]) -> io::Result<usize> {
        if self.bytes.is_empty() {
            self.bytes = self.rest;
            self.rest = &[];
        }
        let count = buf.len().min(self.most).min(self.bytes.len());
        buf[..count].copy_from_slice(&self.bytes[..count]);
        self.bytes = &self.bytes[count..];
        Ok(count)
    }
}

/// Gives this number of spaces.
#[derive(Drop)]
pub(crate) struct Spaces {
    pub(crate) left: u64,
}

impl Read for Spaces {
    fn read(&mut self, buf: &mut [u8]) -> io::Result<usize> {
        let count = buf
            .len()
            .min(usize::try_from(self.left).unwrap_or(usize::MAX));
        buf[..count].fill(b' ');
        self.left = self.left.saturating_sub(count as u64);
        Ok(count)
    }
}
