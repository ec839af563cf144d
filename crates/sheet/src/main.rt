// The program: reads a sheet from standard input, or from each file that an argument names, and prints what running it gives.

#![tactic(auto)]

ghost use Rattle.std.specs.Prelude.{◌≤◌, length, IfOk};

use std::env::{Env, FillError};
use std::fs::File;
use std::io;
use std::io::{ErrorKind, Read, Write};

// Says on standard error what went wrong; where that takes nothing either, nobody is left to be told.
fn tell(rt: &HostRuntime, what: &str, error: io::Error) {
    let told = eprintln!(rt; "{what}: {error}");
    drop(told);
}

// Prints what running a text gives: at most 49,188 bytes, as `printing::print` promises.
fn print_text(rt: &HostRuntime, text: &[u8]) {
    let mut out = [0u8; 49188];
    let printed = printing::print(text, &mut out);
    let end = printed.length as usize;
    if let Err(error) = io::writer(rt).write_all(&out[..end]) {
        tell(rt, "standard output", error);
    }
}

// Reads to the end of the input, or until the buffer is full, and says how many bytes. A read that fails gives no text: a sheet that is cut
// short must not be run.
fn read_full<R: Read + Drop>(mut reader: R, text: &mut [u8]) -> io::Result<usize>
    ensures { IfOk result (λ n. n ≤ length text.new) }
{
    let mut n = 0;
    while n < text.len() {
        let more = reader.read(&mut text[n..])?;
        if more == 0 {
            break;
        }
        n += more;
    }
    Ok(n)
}

// Prints what running the sheet gives, or says why it cannot be read. A sheet has at most 65,536 bytes; one more is read, so that a longer
// one is refused.
fn print_sheet<R: Read + Drop>(rt: &HostRuntime, name: &str, reader: R) {
    let mut text = [0u8; 65537];
    match read_full(reader, &mut text) {
        Ok(n) => print_text(rt, &text[..n]),
        Err(error) => tell(rt, name, error),
    }
}

// The sheet of the file with this name. The standard library opens names in UTF-8 alone.
fn print_file(rt: &HostRuntime, name: &[u8]) {
    let Ok(path) = str::from_utf8(name) else {
        refuse_name(rt);
        return;
    };
    match File::open(rt, path) {
        Ok(file) => print_sheet(rt, path, file),
        Err(error) => tell(rt, path, error),
    }
}

// An argument that names no file.
fn refuse_name(rt: &HostRuntime) {
    tell(rt, "file name", io::Error::from(ErrorKind::InvalidFilename));
}

fn main(rt: HostRuntime) {
    let mut name = [0u8; 4096];
    if matches!(rt.arg(1, &mut name), Err(FillError::NotPresent)) {
        print_sheet(&rt, "sheet", rt.stdin());
        return;
    }
    for i in 1..usize::MAX {
        match rt.arg(i, &mut name) {
            Ok(n) => print_file(&rt, &name[..n]),
            Err(FillError::TooLong) => refuse_name(&rt),
            Err(FillError::NotPresent) => break,
        }
    }
}
