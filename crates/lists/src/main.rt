// Lists the captures in the files that its arguments name, one after the other.
#![tactic(auto)]

ghost use Rattle.std.specs.Prelude.{◌≤◌, length};

use listing::{LONGEST_LIST, MOST_INPUT, list};
use std::env::FillError;
use std::fs::File;
use std::io::{Error, Read, Result, Write};
use std::rt::{Env, Files};

fn main(rt: HostRuntime) {
    // The program's own name is number 0.
    for i in 1..usize::MAX {
        let mut word = [0u8; 4096];
        match rt.arg(i, &mut word) {
            Ok(length) => list_file(&rt, i, &word[..length]),
            Err(FillError::TooLong) => list_file(&rt, i, b""),
            Err(FillError::NotPresent) => return,
        }
    }
}

fn list_file(rt: &(impl Files + Print + Eprint), i: usize, word: &[u8]) {
    let Ok(path) = str::from_utf8(word) else {
        let _ = eprintln!(rt; "argument {i} is not UTF-8");
        return;
    };
    match File::open(rt, path) {
        Ok(mut file) => list_from(rt, &mut file),
        Err(error) => complain(rt, path, error),
    }
}

// If a read fails, what came before is listed.
fn list_from(rt: &impl Print, file: &mut impl Read) {
    let mut input = [0u8; MOST_INPUT + 1];
    let (n, _) = read_full(file, &mut input);
    // Each program has these arrays itself, where their lengths are compared with the header's.
    let mut cells = [0; 13056];
    let mut marks = [0; 256];
    let mut out = [0u8; LONGEST_LIST];
    // No list is longer than out.
    if let Ok(size) = list(&input[..n], &mut cells, &mut marks, &mut out) {
        let _ = rt.write_all(&out[..size]);
    }
}

// Reads until the input ends, buf is full or a read fails, and returns how many bytes came, and whether a read failed.
fn read_full(input: &mut impl Read, buf: &mut [u8]) -> (usize, Result<()>)
    ensures { result.0 ≤ length buf.new }
{
    // No `for`: a read takes as many bytes as it likes.
    let mut done = 0;
    while done < buf.len() {
        match input.read(&mut buf[done..]) {
            Ok(0) => break,
            Ok(more) => done += more,
            Err(error) => return (done, Err(error)),
        }
    }
    (done, Ok(()))
}

// One line on standard error: what failed, and the system's reason without its number.
fn complain(rt: &impl Eprint, what: &str, error: Error) {
    let mut text = [0u8; 128];
    let mut room = &mut text[..];
    let _ = write!(room, "{error}");
    let _ = eprintln!(rt; "{what}: {}", reason(&text));
}

fn reason(text: &[u8]) -> &str {
    let Ok(text) = str::from_utf8(text) else {
        return "";
    };
    match text.split_once(" (os error ") {
        Some((reason, _)) => reason,
        None => text.trim_end_matches('\0'),
    }
}
