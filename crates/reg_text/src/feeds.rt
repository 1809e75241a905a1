//! Where the first line feed of a text is, eight bytes at a time, as `str::find` looks for it.
// (the crate memchr looks at vectors of 32 bytes: most lines are shorter, and WebAssembly has no such vectors)
ghost use Rattle.std.specs.Prelude.{◌≡◌, ◌+◌, ◌≤◌, ◌==◌, length, slice_index};
ghost use Rattle.core.specs.Slice.Scan.{little_endian, Flags, IsFirstPlace};

const HIGH_BITS: u64 = 0x8080_8080_8080_8080;

const LOW_BITS: u64 = 0x7f7f_7f7f_7f7f_7f7f;

const LINE_FEEDS: u64 = 0x0a0a_0a0a_0a0a_0a0a;

/// The eight bytes from a place on, as one word.
#[inline(always)]
fn word_at(text: &[u8], place: usize) -> u64
    requires { place + 8 ≤ length text.now }
    ensures { result ≡ little_endian text.now place }
{
    u64::from_le_bytes([
        text[place],
        text[place + 1],
        text[place + 2],
        text[place + 3],
        text[place + 4],
        text[place + 5],
        text[place + 6],
        text[place + 7],
    ])
}

/// The high bit of each byte is set where the text has a line feed. A byte of `differs` is 0 there, and no sum carries
/// into the next byte.
#[inline(always)]
fn flags_at(text: &[u8], place: usize) -> u64
    requires { place + 8 ≤ length text.now }
    ensures { Flags (λ k. (slice_index text.now k == 10)) place result }
{
    let differs = word_at(text, place) ^ LINE_FEEDS;
    (((differs & LOW_BITS) + LOW_BITS | differs) & HIGH_BITS) ^ HIGH_BITS
}

/// The place of the first line feed of a text, and the text's length where it has none.
#[inline(always)]
pub(crate) fn line_feed(text: &[u8]) -> usize
    ensures { IsFirstPlace (λ k. (slice_index text.now k == 10)) 0 (length text.now) result }
{
    let mut place = 0;
    while 8 <= text.len() - place {
        let flags = flags_at(text, place);
        if flags != 0 {
            return place + flags.trailing_zeros() as usize / 8;
        }
        place += 8;
    }
    while place < text.len() && text[place] != b'\n' {
        place += 1;
    }
    place
}
