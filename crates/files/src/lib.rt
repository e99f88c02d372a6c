// Files by name, and the lines that every program prints.
#![tactic(auto)]

ghost use Rattle.std.specs.Prelude.{◌≤◌, length, IfSome};

use refusals::Told;
use std::fs::{File, OpenOptions};
use std::io::{Read, Write};
use std::rt::Files;
use std::{fs, io};
use std_io::io::last_error;
use task::Refusal;

// Room for more than any accepted file, and for all that is written of one.
pub const LARGE: usize = 65536;

// Reads an open file to its end, or as much of it as the buffer has room for, and answers how many bytes that is. A read that fails
// counts for the whole file: what came before it is no file.
fn read_open(file: &mut impl Read, buf: &mut [u8]) -> Option<usize>
    ensures { IfSome result (λ n. n ≤ length buf.new) }
{
    let mut done = 0;
    while done < buf.len() {
        let n = file.read(&mut buf[done..]).ok()?;
        if n == 0 {
            return Some(done);
        }
        done += n;
    }
    Some(done)
}

// Reads a file into the start of a buffer, as much of it as fits: so many bytes, or none since it can't be opened or read. The system is
// asked by names that are text; a file of another name can't be opened.
pub fn read(rt: &impl Files, name: &[u8], buf: &mut [u8]) -> Option<usize>
    ensures { IfSome result (λ n. n ≤ length buf.new) }
{
    let name = str::from_utf8(name).ok()?;
    let mut file = File::open(rt, name).ok()?;
    read_open(&mut file, buf)
}

// What came of trying to open a file for writing: it was there, it was missing and is now made, or it can't be opened.
#[derive(Clone, Copy, PartialEq, Eq)]
enum Tried {
    Old,
    New,
    Closed,
}

// Tries to open a file for writing, and leaves its bytes as they are. A link to a file that is missing counts as one that was
// there.
fn try_open(rt: &impl Files, name: &str) -> Tried {
    if OpenOptions::new().append(true).open(rt, name).is_ok() {
        return Tried::Old;
    }
    if OpenOptions::new()
        .write(true)
        .create_new(true)
        .open(rt, name)
        .is_ok()
    {
        return Tried::New;
    }
    if File::create(rt, name).is_ok() {
        return Tried::Old;
    }
    Tried::Closed
}

// Takes back what trying to open a file has made.
fn take_back(rt: &impl Files, name: &str, tried: Tried) {
    if tried == Tried::New {
        let _ = fs::remove_file(rt, name);
    }
}

// Whether two files can be opened for writing. Neither is emptied, and where one can't be opened neither is made.
pub fn both_open(rt: &impl Files, a: &[u8], b: &[u8]) -> bool {
    let (Ok(a), Ok(b)) = (str::from_utf8(a), str::from_utf8(b)) else {
        return false;
    };
    let of_a = try_open(rt, a);
    let of_b = try_open(rt, b);
    let both = (of_a != Tried::Closed) & (of_b != Tried::Closed);
    if !both {
        take_back(rt, a, of_a);
        take_back(rt, b, of_b);
    }
    both
}

// Empties a file.
pub fn empty(rt: &impl Files, name: &[u8]) {
    if let Ok(name) = str::from_utf8(name) {
        let _ = File::create(rt, name);
    }
}

// Closes a file, and answers whether that went well. A dropped file is closed, and of what the system answers only the number of its last
// error is left. It is read before and after: opening a file with no name has set it to one that no close gives.
fn closed<R: Files>(rt: &R, file: R::File) -> bool {
    let _ = File::open(rt, "");
    let before = last_error().raw_os_error();
    drop(file);
    last_error().raw_os_error() == before
}

// Writes a file, and answers whether it now holds the bytes alone: it was opened, and every write and the close went well. Where
// one of these failed the file is emptied, so that nothing takes a part for the whole.
pub fn write(rt: &impl Files, name: &[u8], bytes: &[u8]) -> bool {
    let Ok(text) = str::from_utf8(name) else {
        return false;
    };
    let Ok(mut file) = File::create(rt, text) else {
        return false;
    };
    let all = file.write_all(bytes).is_ok();
    let closed = closed(rt, file);
    let whole = all & closed;
    if !whole {
        empty(rt, name);
    }
    whole
}

// Prints that a file is missing.
pub fn say_missing(rt: &impl Print) -> io::Result<()> {
    rt.write_all(b"no file\n")
}

// Writes a file, which then holds the bytes alone, or nothing where it could not be written: then it prints that it is missing.
pub fn write_or_say(rt: &(impl Files + Print), name: &[u8], bytes: &[u8]) -> io::Result<()> {
    if write(rt, name, bytes) {
        Ok(())
    } else {
        say_missing(rt)
    }
}

// Prints the line of a refusal.
pub fn say_refused(rt: &impl Print, f: impl Told) -> io::Result<()> {
    let mut line = [0u8; 64];
    let told = f.told();
    let k = text::put_refused(&mut line, 0, told.number as u64, told.place as u64);
    rt.write_all(text::front(&line, k))
}

// Prints the first n bytes of an area, where so many were written to it, or the line of a refusal.
pub fn say_written(
    rt: &impl Print,
    written: Result<usize, Refusal>,
    area: &[u8],
) -> io::Result<()> {
    match written {
        Ok(n) => rt.write_all(text::front(area, n)),
        Err(f) => say_refused(rt, f),
    }
}

// Prints what `make` makes of the file `task` and another file, whose bytes are read into a buffer, in an area. Both files are read
// before either is found missing. The buffer of the task has room for more than any accepted file, so a longer one gets the answer of
// the whole file.
pub fn say_made<F>(
    rt: &(impl Files + Print),
    name: &[u8],
    buf: &mut [u8],
    out: &mut [u8],
    make: F,
) -> io::Result<()>
where
    F: FnOnce(&[u8], &[u8], &mut [u8]) -> Result<usize, Refusal>,
    requires { F.IsAlwaysCallable make }
{
    let mut task = [0u8; LARGE];
    let of_task = read(rt, b"task", &mut task);
    let of_other = read(rt, name, &mut *buf);
    let (Some(n), Some(m)) = (of_task, of_other) else {
        return say_missing(rt);
    };
    let written = make(text::front(&task, n), text::front(&*buf, m), &mut *out);
    say_written(rt, written, &*out)
}

// Writes what `make` makes of one file to another, which then holds that alone, or nothing where it could not be written. The first
// buffer has room for more than any accepted file, so a longer one gets the answer of the whole file; the second for all that is
// written of one.
pub fn rewrite<F>(rt: &(impl Files + Print), from: &[u8], to: &[u8], make: F) -> io::Result<()>
where
    F: FnOnce(&[u8], &mut [u8]) -> Result<usize, Refusal>,
    requires { F.IsAlwaysCallable make }
{
    let mut source = [0u8; LARGE];
    let Some(n) = read(rt, from, &mut source) else {
        return say_missing(rt);
    };
    let mut out = [0u8; LARGE];
    match make(text::front(&source, n), &mut out) {
        Ok(m) => write_or_say(rt, to, text::front(&out, m)),
        Err(f) => say_refused(rt, f),
    }
}
