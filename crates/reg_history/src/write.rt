//! Writing a report.
ghost use Rattle.std.specs.Prelude.{◌≡◌, ◌+◌, ◌≤◌, ◌<◌, ◌^◌, ◌++◌, ◌∷◌, [], codes, length, option_map, take, drop};
ghost use Rattle.std.specs.Prelude.{replicate};
ghost use Rattle.std.specs.Fmt.{decimal};
ghost use Rattle.reg_history.specs.EntryLines.{entry_text};
ghost use Rattle.reg_text.specs.Ops.{answer_text, op_text};
ghost use Rattle.reg_history.specs.IdLines.{id_text, point_text};
ghost use Rattle.reg_text.specs.Lines.{lines_by, text_of};
ghost use Rattle.reg_text.specs.Columns.{to_left, to_right};
ghost use Rattle.reg_text.specs.Writing.{Puts};
ghost use Rattle.reg_history.specs.Reports.{newer_head_lines, tail_lines};

use itoa::{Buffer, write_digits};
use reg_base::{Answer, Names, Op, OpId};
use reg_checkers::{Entry, Point};
use reg_text::{Sink, name_at, put_op};
use std::alloc::Allocator;
use std::io::Write;

/// Writes bytes in front of `end`, and gives where they begin.
#[inline(always)]
fn write_before(bytes: &[u8], line: &mut [u8], end: usize) -> usize
    requires { (length bytes.now ≤ end) × (end ≤ length line.old) }
    ensures start { result + length bytes.now ≡ end }
    ensures written { drop result line.new ≡ bytes.now ++ drop end line.old }
{
    let start = end - bytes.len();
    line[start..end].copy_from_slice(bytes);
    start
}

/// How many digits a number of at most six has.
#[inline]
fn count_digits(number: u32) -> usize
    requires { number < 10 ^ 6 }
    ensures count { result ≡ length (decimal number) }
    ensures few { result ≤ 6 }
{
    match number {
        0..=9 => 1,
        10..=99 => 2,
        100..=999 => 3,
        1_000..=9_999 => 4,
        10_000..=99_999 => 5,
        _ => 6,
    }
}

/// Writes a number of at most six digits from `start` on.
#[inline]
fn write_left(number: u32, line: &mut [u8], start: usize)
    requires small { number < 10 ^ 6 }
    requires room { start + 6 ≤ length line.old }
    ensures written { drop start line.new ≡ decimal number ++ drop (start + length (decimal number)) line.old }
    ensures before { take start line.new ≡ take start line.old }
{
    write_digits(number as u64, line, start + count_digits(number));
}

/// Puts a number at the left of `places` places, and the mark that stands after as many spaces.
fn put_left<W: Write>(sink: &mut Sink<'_, W>, number: u64, places: usize, marked: &[u8])
    requires { marked.now ≡ replicate places 32 ++ drop places marked.now }
    ensures { Puts W.contents sink.old sink.new (to_left places (decimal number) ++ drop places marked.now) }
{
    let mut buffer = Buffer::new();
    let digits = buffer.format(number).as_bytes();
    sink.put(digits);
    sink.put(&marked[digits.len().min(places)..]);
}

/// Puts the columns that a line of the history begins with, whose numbers may be wider than they are, and the mark that
/// stands after six spaces.
#[cold]
#[inline(never)]
fn put_wide_columns<W: Write>(sink: &mut Sink<'_, W>, at: u32, id: OpId, marked: &[u8])
    requires { marked.now ≡ replicate 6 32 ++ drop 6 marked.now }
    ensures { Puts W.contents sink.old sink.new
        (to_right 8 (decimal at)
        ++ (codes "  p"
        ++ (to_left 3 (decimal id.process) ++ (codes "  #" ++ (to_left 6 (decimal id.number) ++ drop 6 marked.now))))) }
{
    let mut event = *b"            p";
    let start = write_digits(at as u64, &mut event, 10);
    sink.put(&event[start.min(2)..]);
    put_left(sink, id.process as u64, 3, b"     #");
    put_left(sink, id.number as u64, 6, marked);
}

/// Puts the columns that a line of the history begins with, and the mark that stands after them in a line whose columns
/// are blank.
fn put_columns<W: Write>(sink: &mut Sink<'_, W>, at: u32, id: OpId, line: &mut [u8; 33])
    requires { line.old ≡ codes "          p     #      " ++ drop 23 line.old }
    ensures { Puts W.contents sink.old sink.new
        (to_right 8 (decimal at)
        ++ (codes "  p"
        ++ (to_left 3 (decimal id.process) ++ (codes "  #" ++ (to_left 6 (decimal id.number) ++ drop 23 line.old))))) }
{
    if at > 99_999_999 || id.number > 999_999 {
        put_wide_columns(sink, at, id, &line[17..]);
        return;
    }
    // (the digits are written over the blanks: one piece of a known length goes to the sink)
    write_digits(at as u64, line, 8);
    write_left(id.process as u32, line, 11);
    write_left(id.number, line, 17);
    sink.put(line);
}

/// Puts a number, and ends the line.
fn put_last<W: Write>(sink: &mut Sink<'_, W>, number: u64)
    ensures { Puts W.contents sink.old sink.new (decimal number ++ 10 ∷ []) }
{
    let mut line = *b"                    \n";
    let start = write_digits(number, &mut line, 20);
    sink.put(&line[start..]);
}

/// Puts the answer that is a value, and ends the line.
fn put_value<W: Write>(sink: &mut Sink<'_, W>, value: u64)
    ensures { Puts W.contents sink.old sink.new (codes "value " ++ (decimal value ++ 10 ∷ [])) }
{
    let mut line = *b"                          \n";
    let digits = write_digits(value, &mut line, 26);
    let start = write_before(b"value ", &mut line, digits);
    sink.put(&line[start..]);
}

/// Puts an answer, and ends the line.
fn put_answer<W: Write>(sink: &mut Sink<'_, W>, answer: Answer)
    ensures { Puts W.contents sink.old sink.new (answer_text answer ++ 10 ∷ []) }
{
    match answer {
        Answer::Done => sink.put(b"done\n"),
        Answer::Unequal => sink.put(b"unequal\n"),
        Answer::Value(value) => put_value(sink, value),
    }
}

/// Puts an operation, and ends the line.
fn put_op_line<A: Allocator + Copy, W: Write>(sink: &mut Sink<'_, W>, names: &Names<A>, op: Op)
    ensures { Puts W.contents sink.old sink.new (op_text names.now op ++ 10 ∷ []) }
{
    put_op(sink, names, op);
    sink.put(b"\n");
}

/// Puts the line of an entry.
fn put_entry<A: Allocator + Copy, W: Write>(sink: &mut Sink<'_, W>, names: &Names<A>, entry: Entry)
    ensures { Puts W.contents sink.old sink.new (entry_text names.now entry ++ 10 ∷ []) }
{
    match entry {
        Entry::Called { at, id, op } => {
            let mut line = *b"          p     #        call    ";
            put_columns(sink, at, id, &mut line);
            put_op_line(sink, names, op);
        }
        Entry::Answered { at, id, answer } => {
            let mut line = *b"          p     #        answer  ";
            put_columns(sink, at, id, &mut line);
            put_answer(sink, answer);
        }
    }
}

/// Puts a line for each entry.
pub fn put_entries<A: Allocator + Copy, W: Write>(
    sink: &mut Sink<'_, W>,
    names: &Names<A>,
    entries: &[Entry],
)
    ensures { Puts W.contents sink.old sink.new (lines_by (entry_text names.now) entries.now) }
{
    for entry in entries {
        put_entry(sink, names, *entry);
    }
}

/// Writes an operation of an order in front of `end`, and gives where it begins.
#[inline]
fn write_id(id: OpId, line: &mut [u8], end: usize) -> usize
    requires { (16 ≤ end) × (end ≤ length line.old) }
    ensures bound { result ≤ end }
    ensures written { drop result line.new ≡ id_text id ++ drop end line.old }
{
    let number = write_digits(id.number as u64, line, end);
    let mark = write_before(b" #", line, number);
    let process = write_digits(id.process as u64, line, mark);
    write_before(b"p", line, process)
}

/// Puts the line of an operation of an order.
fn put_id<W: Write>(sink: &mut Sink<'_, W>, id: OpId)
    ensures { Puts W.contents sink.old sink.new (id_text id ++ 10 ∷ []) }
{
    let mut line = *b"                \n";
    let start = write_id(id, &mut line, 16);
    sink.put(&line[start..]);
}

/// Puts a line for each operation.
pub fn put_ids<W: Write>(sink: &mut Sink<'_, W>, ids: &[OpId])
    ensures { Puts W.contents sink.old sink.new (lines_by id_text ids.now) }
{
    for id in ids {
        put_id(sink, *id);
    }
}

/// Puts the line of a point.
fn put_point<W: Write>(sink: &mut Sink<'_, W>, point: Point)
    ensures { Puts W.contents sink.old sink.new (point_text point ++ 10 ∷ []) }
{
    let mut line = *b"                              \n";
    let at = write_digits(point.at as u64, &mut line, 30);
    let id = write_before(b" at ", &mut line, at);
    let start = write_id(point.id, &mut line, id);
    sink.put(&line[start..]);
}

/// Puts a line for each point.
pub fn put_points<W: Write>(sink: &mut Sink<'_, W>, points: &[Point])
    ensures { Puts W.contents sink.old sink.new (lines_by point_text points.now) }
{
    for point in points {
        put_point(sink, *point);
    }
}

/// Puts a line for each name.
pub fn put_names<A: Allocator + Copy, W: Write>(sink: &mut Sink<'_, W>, names: &Names<A>)
    ensures { Puts W.contents sink.old sink.new (lines_by (λ name. name) names.now) }
{
    for place in 0..names.count() {
        let name = name_at(names, place as u16);
        put_line(sink, "", name);
    }
}

/// Puts a line of two parts.
pub fn put_line<W: Write>(sink: &mut Sink<'_, W>, mark: &str, text: &str)
    ensures { Puts W.contents sink.old sink.new (mark.now ++ (text.now ++ 10 ∷ [])) }
{
    sink.put(mark.as_bytes());
    sink.put(text.as_bytes());
    sink.put(b"\n");
}

/// Puts the line of a count.
pub fn put_count<W: Write>(sink: &mut Sink<'_, W>, mark: &str, count: usize)
    ensures { Puts W.contents sink.old sink.new (mark.now ++ (decimal count ++ 10 ∷ [])) }
{
    sink.put(mark.as_bytes());
    put_last(sink, count as u64);
}

/// Puts the first lines of a version that is written, but for the line that names it.
pub fn put_head<A: Allocator + Copy, W: Write>(
    sink: &mut Sink<'_, W>,
    front: &str,
    processes: u32,
    names: &Names<A>,
)
    ensures { Puts W.contents sink.old sink.new (text_of (newer_head_lines front.now processes names.now [])) }
{
    put_line(sink, "front ", front);
    put_count(sink, "processes ", processes as usize);
    put_count(sink, "registers ", names.count());
    put_names(sink, names);
}

/// Puts the points, if there are any, and the last line.
pub fn put_tail<A: Allocator + Copy, W: Write>(
    sink: &mut Sink<'_, W>,
    points: &Option<Vec<Point, A>>,
)
    ensures { Puts W.contents sink.old sink.new (text_of (tail_lines (option_map (λ v. v.items) points.now))) }
{
    match points {
        Some(points) => {
            let points = points.as_slice();
            put_count(sink, "points ", points.len());
            put_points(sink, points);
            put_line(sink, "end", "");
        }
        None => {
            put_line(sink, "end", "");
        }
    }
}
