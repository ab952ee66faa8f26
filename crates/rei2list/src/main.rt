// Lists the capture on standard input. The exit status says nothing: a list is whole if its last line begins with `end`, and whatever fails says
// so in one line on standard error.
#![tactic(auto)]

ghost use Rattle.std.specs.Prelude.{◌≤◌, length};

use listing::{LONGEST_LIST, MOST_INPUT, list};
use std::env::FillError;
use std::io::{Error, Read, Result, Write};
use std::rt::Env;

const HELP: [&str; 6] = [
    "usage: rei2list < CAPTURE > LIST\n",
    "Lists the static replies in a capture of a REI2 serial line, sorted by request.\n",
    "A capture is the bytes of the line as they came, at most 32,768.\n",
    "The list has a heading, a row for each reply, and a last line: end, requests opened,\n",
    "replies collected, dynamic requests, frames refused. Columns are separated by tabs.\n",
    "A list without its end line is not whole; standard error then says why.\n",
];

// What the program is asked for.
#[derive(Clone, Copy)]
enum Asked {
    List,
    Help,
    Other,
}

fn main(rt: HostRuntime) {
    match what_is_asked(&rt) {
        Asked::List => list_input(&rt),
        Asked::Help => print_help(&rt),
        Asked::Other => refuse_words(&rt),
    }
}

// A step of its own, so that the word is not on the stack while a capture is listed. The program's own name is argument 0.
fn what_is_asked(rt: &impl Env) -> Asked {
    let mut word = [0u8; 4096];
    let first = rt.arg(1, &mut word);
    let second = rt.arg(2, &mut [0]);
    match (first, second) {
        (Err(FillError::NotPresent), _) => Asked::List,
        (Ok(length), Err(FillError::NotPresent)) if word[..length] == b"--help"[..] => Asked::Help,
        _ => Asked::Other,
    }
}

// Nothing is printed if the input cannot be read to its end, so that a part of a capture is never taken for the whole of it.
fn list_input(rt: &(impl Input + Print + Eprint)) {
    // One byte more than is listed, to see that there is more.
    let mut input = [0u8; MOST_INPUT + 1];
    let (n, read) = read_full(&mut rt.reader(), &mut input);
    if let Err(error) = read {
        complain(rt, "standard input", error);
        return;
    }
    // Each program has these arrays itself, where their lengths are compared with the header's.
    let mut cells = [0; 13056];
    let mut marks = [0; 256];
    let mut out = [0u8; LONGEST_LIST];
    // No list is longer than out.
    if let Ok(size) = list(&input[..n], &mut cells, &mut marks, &mut out) {
        print(rt, &out[..size]);
    }
}

// Reads until the input ends, buf is full or a read fails, and returns how many bytes came, and whether a read failed.
fn read_full(input: &mut impl Read, buf: &mut [u8]) -> (usize, Result<()>)
    ensures { result.0 ≤ length buf.new }
{
    // No `for`: a read takes as many bytes as it likes.
    let mut done = 0;
    while done < buf.len() {
        match input.read(&mut buf[done..]) {
            Ok(0) => break,
            Ok(more) => done += more,
            Err(error) => return (done, Err(error)),
        }
    }
    (done, Ok(()))
}

fn print(rt: &(impl Print + Eprint), text: &[u8]) {
    if let Err(error) = rt.write_all(text) {
        complain(rt, "standard output", error);
    }
}

// One line on standard error: what failed, and the system's reason without its number.
fn complain(rt: &impl Eprint, what: &str, error: Error) {
    let mut text = [0u8; 128];
    let mut room = &mut text[..];
    let _ = write!(room, "{error}");
    let _ = eprintln!(rt; "rei2list: {what}: {}", reason(&text));
}

fn reason(text: &[u8]) -> &str {
    let Ok(text) = str::from_utf8(text) else {
        return "";
    };
    match text.split_once(" (os error ") {
        Some((reason, _)) => reason,
        None => text.trim_end_matches('\0'),
    }
}

fn print_help(rt: &(impl Print + Eprint)) {
    for line in HELP {
        print(rt, line.as_bytes());
    }
}

fn refuse_words(rt: &impl Eprint) {
    let _ = eprintln!(rt;
        "rei2list: the only argument is --help; the capture is read from standard input"
    );
}
