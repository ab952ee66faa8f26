// Reads cases from standard input, one on each line, and prints the answer to each. docs/CASES.md describes both.
#![tactic(auto)]

mod dynamic_asked;
mod finder_asked;
mod frame;
mod reply_asked;
mod request_asked;
mod times_asked;

use frames::dynamic::DynamicRequest;
use frames::reply::StaticReply;
use frames::request::StaticRequest;
use spelling::line::{self, Words};
use std::io::{self, BufReader, BufWriter, Write};

fn main(rt: HostRuntime) -> io::Result<()> {
    let mut from = BufReader::new(rt.alloc(), rt.reader())?;
    let mut to = BufWriter::new(rt.alloc(), io::writer(&rt))?;
    let mut buffer = [0u8; 1024];
    for _ in 0..u64::MAX {
        let n = line::read_line(&mut from, &mut buffer)?;
        if n == 0 {
            break;
        }
        answer(&mut to, &mut Words::of(&buffer[..n]))?;
        to.flush()?;
    }
    Ok(())
}

fn answer<W: Write>(to: &mut W, s: &mut Words<'_>) -> io::Result<()> {
    match s.word() {
        b"number" => times_asked::number(to, s),
        b"digits" => times_asked::digits_of(to, s),
        b"clock" => times_asked::clock(to, s),
        b"clock-text" => times_asked::clock_text(to, s),
        b"day" => times_asked::day(to, s),
        b"net" => times_asked::net(to, s),
        b"net-parts" => times_asked::net_parts_of(to, s),
        b"running" => times_asked::running(to, s),
        b"read-request" => frame::reading::<StaticRequest, W>(to, s),
        b"read-reply" => frame::reading::<StaticReply, W>(to, s),
        b"read-reply-value" => reply_asked::reading_value(to, s),
        b"read-dynamic" => frame::reading::<DynamicRequest, W>(to, s),
        b"write-request" => frame::writing::<StaticRequest, W>(to, s),
        b"write-reply" => frame::writing::<StaticReply, W>(to, s),
        b"write-reply-value" => reply_asked::writing_value(to, s),
        b"write-dynamic" => frame::writing::<DynamicRequest, W>(to, s),
        b"damage-request" => frame::damage::<StaticRequest, W>(to, s),
        b"damage-reply" => frame::damage::<StaticReply, W>(to, s),
        b"damage-dynamic" => frame::damage::<DynamicRequest, W>(to, s),
        b"find" => finder_asked::find(to, s),
        b"find-from" => finder_asked::find_from(to, s),
        _ => writeln!(to, "no such case"),
    }
}
