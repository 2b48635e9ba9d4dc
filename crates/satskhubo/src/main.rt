// The program: checks the log of a run against a sheet, and prints the refusal, the verdict and, when violated, where.
// It reads the files sheet and log, or the two that its arguments name.
#![tactic(auto)]

ghost use Rattle.std.specs.Prelude.{◌≤◌, length, take, IfSome, OnOk};
ghost use Rattle.std.specs.Io.KnownBytes.{Appends};
ghost use Rattle.report.specs.Printing.{report_of};

use std::env::{Env, FillError};
use std::io;
use std::io::Write;
use std::rt::Files;

fn has_argument(rt: &impl Env, i: usize) -> bool {
    !matches!(rt.arg(i, &mut []), Err(FillError::NotPresent))
}

// The file that argument i names; without arguments, the usual one.
fn load_or_usual<R: Files + Env + Eprint + Alloc>(
    rt: &R,
    i: usize,
    usual: &[u8],
    into: &mut [u8],
) -> Option<usize>
    ensures { IfSome result (λ size. size ≤ length into.old) }
{
    if !has_argument(rt, 1) {
        return files::load(rt, usual, into);
    }
    files::load_argument(rt, i, into)
}

// Checks, and prints the lines of document 01.
fn print_report<W: Write>(out: &mut W, sheet: &[u8], log: &[u8]) -> io::Result<()>
    ensures { OnOk result (Appends (W.contents out.old) (W.contents out.new) (take (report_of sheet.now log.now).length (report_of sheet.now log.now).text)) }
{
    let report = report::report_check(sheet, log);
    out.write_all(&report.text[..report.length])
}

// The memory has one byte more than the largest sheet and the largest log that are accepted, so that a longer file is refused and not cut.
fn main(rt: HostRuntime) -> io::Result<()> {
    let mut sheet = [0u8; 6168];
    let mut log = [0u8; 60029];
    if has_argument(&rt, 3) {
        return eprintln!(rt; "usage: satskhubo [SHEET LOG]");
    }
    let Some(n) = load_or_usual(&rt, 1, b"sheet", &mut sheet) else {
        return Ok(());
    };
    let Some(m) = load_or_usual(&rt, 2, b"log", &mut log) else {
        return Ok(());
    };
    print_report(&mut io::writer(&rt), &sheet[..n], &log[..m])
}
