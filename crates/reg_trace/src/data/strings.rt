//! Strings of JSON that hold any text.
ghost use Rattle.std.specs.Prelude.{◌≡◌, ◌<◌};
ghost use Rattle.std.specs.Char.{digit_char};
ghost use Rattle.std.specs.Char.Escape.{hex_digit_at};
ghost use Rattle.reg_text.specs.Writing.{Puts};
ghost use Rattle.reg_trace.specs.Strings.{char_text, escape_of, is_bare as is_bare_of, string_text, unit_text};

use reg_text::Sink;
use std::io::Write;

/// A digit below 16, in hexadecimal.
fn hex_digit(digit: u16) -> u8
    requires { digit < 16 }
    ensures { result ≡ digit_char digit }
{
    if digit < 10 {
        b'0' + digit as u8
    } else {
        b'a' + (digit as u8 - 10)
    }
}

/// The digit of a unit at the place that is worth `worth`.
fn hex_at(unit: u16, worth: u16) -> u8
    requires { 0 < worth }
    ensures { result ≡ hex_digit_at worth unit }
{
    hex_digit(unit / worth % 16)
}

/// Puts the escape of a unit.
fn put_escape<W: Write>(sink: &mut Sink<'_, W>, unit: u16)
    ensures { Puts W.contents sink.old sink.new (escape_of unit) }
{
    sink.put(&[
        b'\\',
        b'u',
        hex_at(unit, 0x1000),
        hex_at(unit, 0x100),
        hex_at(unit, 0x10),
        hex_at(unit, 1),
    ]);
}

/// Whether a unit stands in a string as it is.
fn is_bare(unit: u16) -> bool
    ensures { result ≡ is_bare_of unit }
{
    32 <= unit && unit <= 126 && unit != 34 && unit != 92 && unit != 60 && unit != 62 && unit != 38
}

/// Puts a unit, as it is or escaped.
fn put_unit<W: Write>(sink: &mut Sink<'_, W>, unit: u16)
    ensures { Puts W.contents sink.old sink.new (unit_text unit) }
{
    if is_bare(unit) {
        sink.put(&[unit as u8]);
    } else {
        put_escape(sink, unit);
    }
}

/// Puts the units of a character.
fn put_char<W: Write>(sink: &mut Sink<'_, W>, c: char)
    ensures { Puts W.contents sink.old sink.new (char_text c) }
{
    let mut units = [0; 2];
    let encoded = c.encode_utf16(&mut units);
    for unit in encoded.iter() {
        put_unit(sink, *unit);
    }
}

/// Puts a text as a string.
pub fn put_string<W: Write>(sink: &mut Sink<'_, W>, text: &str)
    ensures { Puts W.contents sink.old sink.new (string_text text.now) }
{
    sink.put(b"\"");
    for c in text.chars() {
        put_char(sink, c);
    }
    sink.put(b"\"");
}
