//! What each byte of a text of EDN does, by where it stands.
ghost use Rattle.std.specs.Prelude.{◌≡◌, false};
ghost use Rattle.reg_observed.specs.EdnBytes.{behind_hash as behind_hash_of, between as between_of};
ghost use Rattle.reg_observed.specs.EdnBytes.{in_string as in_string_of, in_tag as in_tag_of, in_word as in_word_of};
ghost use Rattle.reg_observed.specs.EdnBytes.{sort_of as sort_of_byte, turn_at as turn_at_byte};

/// A kind of brackets. `Set` are those of a set, of which only the first differs from `Curly`.
#[derive(Clone, Copy, PartialEq, Eq)]
pub(crate) enum Bracket {
    Round,
    Square,
    Curly,
    Set,
}

/// What a byte is outside of strings and comments.
#[derive(Clone, Copy)]
pub(crate) enum Sort {
    /// A blank, a control character or a comma.
    Blank,
    Open(Bracket),
    Close(Bracket),
    Quote,
    Semicolon,
    Hash,
    Backslash,
    /// It is part of a word.
    Other,
}

/// Where a byte stands.
#[derive(Clone, Copy, PartialEq, Eq)]
pub(crate) enum Mode {
    /// Between forms.
    Between,
    /// In a comment, which ends with its line.
    Comment,
    /// Right behind a `#`.
    Dispatch,
    /// In a tag.
    Tag,
    /// Right behind the backslash of a character.
    Character,
    /// In a word: a number, a keyword, a symbol or a character.
    Word,
    /// In a string.
    Quoted,
    /// Right behind a backslash in a string.
    Escaped,
}

/// What a byte does.
#[derive(Clone, Copy)]
pub(crate) enum Does {
    Nothing,
    /// It is kept.
    Keep,
    /// It is kept as an escape of JSON.
    Code,
    /// It ends a string.
    EndString,
    Open(Bracket),
    Close(Bracket),
    /// No EDN that is read goes on so.
    Refuse,
}

/// What comes of a byte.
#[derive(Clone, Copy)]
pub(crate) struct Turn {
    /// Whether a word ends before it.
    pub ends_word: bool,
    pub does: Does,
    /// Where the next byte stands.
    pub next: Mode,
}

/// A turn before which no word ends.
fn turn_to(does: Does, next: Mode) -> Turn
    ensures { result ≡ record { ends_word = false; does = does; next = next } }
{
    Turn {
        ends_word: false,
        does,
        next,
    }
}

fn sort_of(byte: u8) -> Sort
    ensures { result ≡ sort_of_byte byte }
{
    match byte {
        0..=32 | b',' => Sort::Blank,
        b'(' => Sort::Open(Bracket::Round),
        b'[' => Sort::Open(Bracket::Square),
        b'{' => Sort::Open(Bracket::Curly),
        b')' => Sort::Close(Bracket::Round),
        b']' => Sort::Close(Bracket::Square),
        b'}' => Sort::Close(Bracket::Curly),
        b'"' => Sort::Quote,
        b';' => Sort::Semicolon,
        b'#' => Sort::Hash,
        b'\\' => Sort::Backslash,
        _ => Sort::Other,
    }
}

fn between(sort: Sort) -> Turn
    ensures { result ≡ between_of sort }
{
    match sort {
        Sort::Blank => turn_to(Does::Nothing, Mode::Between),
        Sort::Open(bracket) => turn_to(Does::Open(bracket), Mode::Between),
        Sort::Close(bracket) => turn_to(Does::Close(bracket), Mode::Between),
        Sort::Quote => turn_to(Does::Nothing, Mode::Quoted),
        Sort::Semicolon => turn_to(Does::Nothing, Mode::Comment),
        Sort::Hash => turn_to(Does::Nothing, Mode::Dispatch),
        Sort::Backslash => turn_to(Does::Keep, Mode::Character),
        Sort::Other => turn_to(Does::Keep, Mode::Word),
    }
}

fn in_comment(byte: u8) -> Turn
    ensures { result ≡ turn_at_byte Mode.Comment byte }
{
    if byte == b'\n' {
        turn_to(Does::Nothing, Mode::Between)
    } else {
        turn_to(Does::Nothing, Mode::Comment)
    }
}

fn behind_hash(byte: u8, sort: Sort) -> Turn
    ensures { result ≡ behind_hash_of byte sort }
{
    match sort {
        Sort::Open(Bracket::Curly) => turn_to(Does::Open(Bracket::Set), Mode::Between),
        Sort::Hash => turn_to(Does::Keep, Mode::Word),
        Sort::Other if byte != b'_' => turn_to(Does::Nothing, Mode::Tag),
        _ => turn_to(Does::Refuse, Mode::Between),
    }
}

fn in_tag(sort: Sort) -> Turn
    ensures { result ≡ in_tag_of sort }
{
    match sort {
        Sort::Hash | Sort::Backslash | Sort::Other => turn_to(Does::Nothing, Mode::Tag),
        _ => between(sort),
    }
}

fn in_word(sort: Sort) -> Turn
    ensures { result ≡ in_word_of sort }
{
    match sort {
        Sort::Hash | Sort::Other => turn_to(Does::Keep, Mode::Word),
        Sort::Backslash => turn_to(Does::Refuse, Mode::Word),
        _ => Turn {
            ends_word: true,
            ..between(sort)
        },
    }
}

fn in_string(byte: u8) -> Turn
    ensures { result ≡ in_string_of byte }
{
    match byte {
        b'"' => turn_to(Does::EndString, Mode::Between),
        b'\\' => turn_to(Does::Keep, Mode::Escaped),
        0..=31 => turn_to(Does::Code, Mode::Quoted),
        _ => turn_to(Does::Keep, Mode::Quoted),
    }
}

/// What comes of a byte that stands there.
pub(crate) fn turn_at(mode: Mode, byte: u8) -> Turn
    ensures { result ≡ turn_at_byte mode byte }
{
    match mode {
        Mode::Between => between(sort_of(byte)),
        Mode::Comment => in_comment(byte),
        Mode::Dispatch => behind_hash(byte, sort_of(byte)),
        Mode::Tag => in_tag(sort_of(byte)),
        Mode::Character => turn_to(Does::Keep, Mode::Word),
        Mode::Word => in_word(sort_of(byte)),
        Mode::Quoted => in_string(byte),
        Mode::Escaped => turn_to(Does::Keep, Mode::Quoted),
    }
}
