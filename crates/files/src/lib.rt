// Files for the programs: one that is named, or the one that an argument names, read whole into lent memory.
#![tactic(auto)]

ghost use Rattle.std.specs.Prelude.{◌≡◌, ◌≤◌, length, IfOk, IfSome, None};

use std::env::{Env, FillError};
use std::io::Read;
use std::rt::Files;
use std::{fs, io, str};

// The system's numbers for an argument that is not there, for a name that is too long, and for one that is no text.
const EINVAL: i32 = 22;

const ENAMETOOLONG: i32 = 36;

const EILSEQ: i32 = 84;

// An error's words, without the system's number for them.
fn words_of(text: &str) -> &str {
    let Some((words, _)) = text.split_once(" (os error ") else {
        return text;
    };
    words
}

// Says on standard error what cannot be read, and why.
fn fail(rt: &(impl Eprint + Alloc), what: &str, error: io::Error) -> io::Result<()> {
    let text = format!(in rt.alloc(); "{error}")?;
    let words = words_of(text.as_str());
    eprintln!(rt; "{what}: {words}")
}

// Reads until the memory is full or the file ends.
fn read_full(file: &mut impl Read, into: &mut [u8]) -> io::Result<usize>
    ensures { IfOk result (λ size. size ≤ length into.old) }
{
    let mut size = 0;
    // A `while`: a read gets as many bytes as it happens to get.
    while size < into.len() {
        let got = file.read(&mut into[size..])?;
        if got == 0 {
            break;
        }
        size += got;
    }
    Ok(size)
}

// Reads a file to its end, or as far as there is room: a directory can be opened and not read.
fn read_whole(file: &mut impl Read, into: &mut [u8]) -> io::Result<usize>
    ensures { IfOk result (λ size. size ≤ length into.old) }
{
    let size = read_full(file, into)?;
    let mut byte = [0u8; 1];
    let more = file.read(&mut byte)?;
    if more != 0 && size != into.len() {
        return Err(io::Error::other("changed while it was read"));
    }
    Ok(size)
}

// Says on standard error, where it can be said, what cannot be read, and answers none.
fn refuse(rt: &(impl Eprint + Alloc), what: &str, error: io::Error) -> Option<usize>
    ensures { result ≡ None }
{
    let _ = fail(rt, what, error);
    None
}

// Reads a file into lent memory, and answers how many bytes it has; or says on standard error why it cannot be read, and answers none.
pub fn load<R: Files + Eprint + Alloc>(rt: &R, path: &[u8], into: &mut [u8]) -> Option<usize>
    ensures { IfSome result (λ size. size ≤ length into.old) }
{
    let Ok(name) = str::from_utf8(path) else {
        let name = String::from_utf8_lossy(rt.alloc(), path).ok()?;
        return refuse(rt, name.as_str(), io::Error::from_raw_os_error(EILSEQ));
    };
    match read_named(rt, name, into) {
        Ok(size) => Some(size),
        Err(error) => refuse(rt, name, error),
    }
}

fn read_named<R: Files>(rt: &R, name: &str, into: &mut [u8]) -> io::Result<usize>
    ensures { IfOk result (λ size. size ≤ length into.old) }
{
    let mut file = fs::open(rt, name)?;
    read_whole(&mut file, into)
}

// Likewise the file that argument i names.
pub fn load_argument<R: Files + Env + Eprint + Alloc>(
    rt: &R,
    i: usize,
    into: &mut [u8],
) -> Option<usize>
    ensures { IfSome result (λ size. size ≤ length into.old) }
{
    let mut path = [0u8; 4096];
    match rt.arg(i, &mut path) {
        Ok(size) => load(rt, &path[..size], into),
        Err(error) => refuse(
            rt,
            "argument",
            io::Error::from_raw_os_error(number_of(error)),
        ),
    }
}

fn number_of(error: FillError) -> i32 {
    match error {
        FillError::NotPresent => EINVAL,
        FillError::TooLong => ENAMETOOLONG,
    }
}
