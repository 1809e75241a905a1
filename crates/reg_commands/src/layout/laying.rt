//! Writing a workload in its layout.
ghost use Rattle.std.specs.Prelude.{◌≡◌, ◌<◌, ◌++◌, ◌∷◌, [], IfOk, codes, get_or, length, map};
ghost use Rattle.std.specs.Fmt.{decimal};
ghost use Rattle.reg_front.specs.Table.{front_name};
ghost use Rattle.reg_text.specs.Ops.{op_text};
ghost use Rattle.reg_text.specs.Writing.{Puts};
ghost use Rattle.reg_commands.specs.Layout.{between, joined, key_line, load_text, names_array, quoted, script_array};
ghost use Rattle.reg_commands.specs.Layout.{scripts_array};

use reg_base::{Names, Op};
use reg_front::Front;
use reg_inputs::Workload;
use reg_text::{Sink, name_at, put_number, put_op};
use std::alloc::{AllocError, Allocator};
use std::io::Write;

/// Puts what stands before the item of an array at this place.
fn put_between<W: Write>(sink: &mut Sink<'_, W>, place: usize)
    ensures { Puts W.contents sink.old sink.new (between place) }
{
    let before: &[u8] = if place == 0 { b"" } else { b", " };
    sink.put(before);
}

/// Puts a word between quotes.
fn put_quoted<W: Write>(sink: &mut Sink<'_, W>, word: &str)
    ensures { Puts W.contents sink.old sink.new (quoted word.now) }
{
    sink.put(b"\"");
    sink.put(word.as_bytes());
    sink.put(b"\"");
}

/// Puts an operation between quotes.
fn put_quoted_op<A: Allocator + Copy, W: Write>(sink: &mut Sink<'_, W>, names: &Names<A>, op: Op)
    ensures { Puts W.contents sink.old sink.new (quoted (op_text names.now op)) }
{
    sink.put(b"\"");
    put_op(sink, names, op);
    sink.put(b"\"");
}

/// Puts the name at a place of an array.
fn put_name_at<A: Allocator + Copy, W: Write>(
    sink: &mut Sink<'_, W>,
    names: &Names<A>,
    place: usize,
)
    requires place { place < length names.now }
    requires small { place < 65536 }
    ensures { Puts W.contents sink.old sink.new (between place ++ quoted (get_or names.now place [])) }
{
    put_between(sink, place);
    let name = name_at(names, place as u16);
    put_quoted(sink, name);
}

/// Puts the names one after another.
fn put_names_joined<A: Allocator + Copy, W: Write>(sink: &mut Sink<'_, W>, names: &Names<A>)
    ensures { Puts W.contents sink.old sink.new (joined (map quoted names.now)) }
{
    for place in 0..names.count() {
        put_name_at(sink, names, place);
    }
}

/// Puts the array of the names.
fn put_names<A: Allocator + Copy, W: Write>(sink: &mut Sink<'_, W>, names: &Names<A>)
    ensures { Puts W.contents sink.old sink.new (names_array names.now) }
{
    sink.put(b"[");
    put_names_joined(sink, names);
    sink.put(b"]");
}

/// Puts the operation at a place of an array.
fn put_op_at<A: Allocator + Copy, W: Write>(
    sink: &mut Sink<'_, W>,
    names: &Names<A>,
    op: Op,
    place: usize,
)
    ensures { Puts W.contents sink.old sink.new (between place ++ quoted (op_text names.now op)) }
{
    put_between(sink, place);
    put_quoted_op(sink, names, op);
}

/// Puts the operations of a script one after another.
fn put_script_joined<A: Allocator + Copy, W: Write>(
    sink: &mut Sink<'_, W>,
    names: &Names<A>,
    ops: &[Op],
)
    ensures { Puts W.contents sink.old sink.new (joined (map (λ op. quoted (op_text names.now op)) ops.now)) }
{
    for place in 0..ops.len() {
        put_op_at(sink, names, ops[place], place);
    }
}

/// Puts the array of the operations of a script.
fn put_script<A: Allocator + Copy, W: Write>(sink: &mut Sink<'_, W>, names: &Names<A>, ops: &[Op])
    ensures { Puts W.contents sink.old sink.new (script_array names.now ops.now) }
{
    sink.put(b"[");
    put_script_joined(sink, names, ops);
    sink.put(b"]");
}

/// Puts the script at a place of an array.
fn put_script_at<A: Allocator + Copy, W: Write>(
    sink: &mut Sink<'_, W>,
    names: &Names<A>,
    ops: &[Op],
    place: usize,
)
    ensures { Puts W.contents sink.old sink.new (between place ++ script_array names.now ops.now) }
{
    put_between(sink, place);
    put_script(sink, names, ops);
}

/// Puts the scripts one after another.
fn put_scripts_joined<A: Allocator + Copy, W: Write>(
    sink: &mut Sink<'_, W>,
    names: &Names<A>,
    scripts: &[Vec<Op, A>],
)
    ensures { Puts W.contents sink.old sink.new
        (joined (map (λ script. script_array names.now script.items) scripts.now)) }
{
    for place in 0..scripts.len() {
        put_script_at(sink, names, scripts[place].as_slice(), place);
    }
}

/// Puts the array of the scripts.
fn put_scripts<A: Allocator + Copy, W: Write>(
    sink: &mut Sink<'_, W>,
    names: &Names<A>,
    scripts: &[Vec<Op, A>],
)
    ensures { Puts W.contents sink.old sink.new (scripts_array names.now (map (λ script. script.items) scripts.now)) }
{
    sink.put(b"[");
    put_scripts_joined(sink, names, scripts);
    sink.put(b"]");
}

/// Puts the line of a key whose value is a number.
fn put_number_line<W: Write>(sink: &mut Sink<'_, W>, key: &str, number: u64)
    ensures { Puts W.contents sink.old sink.new (key_line key.now (decimal number)) }
{
    sink.put(key.as_bytes());
    put_number(sink, " = ", number);
    sink.put(b"\n");
}

/// Puts the line of the front end.
fn put_front<W: Write>(sink: &mut Sink<'_, W>, front: Front)
    ensures { Puts W.contents sink.old sink.new (key_line (codes "front") (quoted (front_name front))) }
{
    sink.put(b"front = ");
    put_quoted(sink, front.name());
    sink.put(b"\n");
}

/// Puts the line of the names.
fn put_registers<A: Allocator + Copy, W: Write>(sink: &mut Sink<'_, W>, names: &Names<A>)
    ensures { Puts W.contents sink.old sink.new (key_line (codes "registers") (names_array names.now)) }
{
    sink.put(b"registers = ");
    put_names(sink, names);
    sink.put(b"\n");
}

/// Puts the line of the scripts.
fn put_scripts_line<A: Allocator + Copy, W: Write>(
    sink: &mut Sink<'_, W>,
    names: &Names<A>,
    scripts: &[Vec<Op, A>],
)
    ensures { Puts W.contents sink.old sink.new
        (key_line (codes "scripts") (scripts_array names.now (map (λ script. script.items) scripts.now))) }
{
    sink.put(b"scripts = ");
    put_scripts(sink, names, scripts);
    sink.put(b"\n");
}

/// Puts the layout of a workload.
fn put_load<A: Allocator + Copy, W: Write>(sink: &mut Sink<'_, W>, work: &Workload<A>)
    ensures { Puts W.contents sink.old sink.new (load_text work.now) }
{
    put_number_line(sink, "budget", u64::from(work.budget));
    put_front(sink, work.front);
    put_number_line(sink, "loss", u64::from(work.loss));
    put_registers(sink, &work.names);
    put_number_line(sink, "repeat", u64::from(work.repeat));
    put_scripts_line(sink, &work.names, work.scripts.as_slice());
    put_number_line(sink, "seed", work.seed);
}

/// A workload in its layout.
///
/// # Errors
///
/// Memory was refused.
pub fn lay_out<A: Allocator + Copy>(alloc: A, work: &Workload<A>) -> Result<Vec<u8, A>, AllocError>
    ensures { IfOk result (λ v. v.items ≡ load_text work.now) }
{
    let mut text = Vec::new(alloc);
    let mut sink = Sink::new(&mut text);
    put_load(&mut sink, work);
    match sink.finish() {
        Ok(()) => Ok(text),
        Err(_) => Err(AllocError),
    }
}
