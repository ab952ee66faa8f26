// Reads scripts of a desk from standard input, a line each, and prints the answer to each. docs/CASES.md describes both.
#![tactic(auto)]

mod desk_asked;
mod digest;
mod mixes;
mod script;
mod tally_asked;

use desk::state::capacity;
use script::Script;
use spelling::line::{self, Words};
use std::io::{self, BufReader, BufWriter, Write};

fn main(rt: HostRuntime) -> io::Result<()> {
    let mut from = BufReader::new(rt.alloc(), rt.reader())?;
    let mut to = BufWriter::new(rt.alloc(), io::writer(&rt))?;
    let mut buffer = [0u8; 1024];
    let mut script = Script::empty();
    for _ in 0..u64::MAX {
        let n = line::read_line(&mut from, &mut buffer)?;
        if n == 0 {
            break;
        }
        answer(&mut to, &mut script, &mut Words::of(&buffer[..n]))?;
        to.flush()?;
    }
    Ok(())
}

fn answer<W: Write>(to: &mut W, script: &mut Script, s: &mut Words<'_>) -> io::Result<()> {
    match s.word() {
        b"lend" => lending(to, script, s),
        b"mixes" => mixes::playing(to, script, s, mixes::BY_REQUESTER),
        b"mixes-by-address" => mixes::playing(to, script, s, mixes::BY_ADDRESS),
        word if script.is_there() => script.answer(to, word, s),
        _ => writeln!(to, "more is lent than there is"),
    }
}

fn lending<W: Write>(to: &mut W, script: &mut Script, s: &mut Words<'_>) -> io::Result<()> {
    let cells = s.small() as usize;
    let marks = s.small() as usize;
    writeln!(to, "{}", capacity(cells, marks))?;
    script.lend(cells, marks);
    Ok(())
}
