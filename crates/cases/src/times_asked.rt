// Cases on digits and times.
use digits::{number_at, put_number};
use spelling::line::Words;
use spelling::print::{Bytes, Told};
use std::fmt::Display;
use std::io::{self, Write};
use times::clock::{clock_at, put_clock};
use times::day::is_day;
use times::net::{NetParts, is_net, net_parts, net_value};
use times::running::{RunningOf, running_time};

fn print_or_wrong<W: Write, T: Display + Drop>(to: &mut W, found: Option<T>) -> io::Result<()> {
    match found {
        Some(v) => writeln!(to, "{v}"),
        None => writeln!(to, "wrong"),
    }
}

pub fn number<W: Write>(to: &mut W, s: &mut Words<'_>) -> io::Result<()> {
    let at = s.small() as usize;
    let width = s.small() as usize;
    let mut b = [0u8; 100];
    print_or_wrong(to, number_at(s.bytes(&mut b), at, width))
}

pub fn digits_of<W: Write>(to: &mut W, s: &mut Words<'_>) -> io::Result<()> {
    let width = s.small() as usize;
    let mut b = [0u8; 10];
    put_number(&mut b, 0, width, s.number());
    match b.get(..width) {
        Some(digits) => writeln!(to, "{}", Bytes(digits)),
        None => writeln!(to),
    }
}

pub fn clock<W: Write>(to: &mut W, s: &mut Words<'_>) -> io::Result<()> {
    let at = s.small() as usize;
    let mut b = [0u8; 100];
    print_or_wrong(to, clock_at(s.bytes(&mut b), at))
}

pub fn clock_text<W: Write>(to: &mut W, s: &mut Words<'_>) -> io::Result<()> {
    let mut b = [0u8; 10];
    put_clock(&mut b, 0, s.small());
    writeln!(to, "{}", Bytes(&b))
}

pub fn day<W: Write>(to: &mut W, s: &mut Words<'_>) -> io::Result<()> {
    let day = is_day(s.small(), s.small(), s.small());
    writeln!(to, "{}", u8::from(day))
}

pub fn net<W: Write>(to: &mut W, s: &mut Words<'_>) -> io::Result<()> {
    let parts = NetParts {
        minus: s.small() == 1,
        days: s.small() as u64,
        time: s.small(),
    };
    print_or_wrong(to, net_value(parts))
}

pub fn net_parts_of<W: Write>(to: &mut W, s: &mut Words<'_>) -> io::Result<()> {
    let p = net_parts(s.signed());
    if is_net(p) {
        writeln!(to, "{} {} {}", u8::from(p.minus), p.days, p.time)
    } else {
        writeln!(to, "wrong")
    }
}

pub fn running<W: Write>(to: &mut W, s: &mut Words<'_>) -> io::Result<()> {
    let of = RunningOf {
        bib: s.small(),
        tnow: s.small(),
        tev: s.small(),
        sign: s.small(),
        days: s.small(),
        time: s.small(),
    };
    match running_time(of) {
        Ok(v) => writeln!(to, "0 0 0 {v}"),
        Err(f) => writeln!(to, "{} 0", Told(f.into())),
    }
}
