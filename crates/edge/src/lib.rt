// What a program does at its edge: reading to the end, and complaints on standard error.
#![tactic(auto)]

ghost use Rattle.std.specs.Prelude.{◌≡◌, ◌≤◌, length};
ghost use Rattle.edge.specs.Filling.{Filled, Promised};

use std::io::{Error, Read, Result, Write};

// Reads until the input ends, buf is full or a read fails, and returns how many bytes came, and whether a read failed.
// The promise is that reads could have had this outcome. Which error is told, and that none is read after it, is only tested.
pub fn read_full<R: Read>(input: &mut R, buf: &mut [u8]) -> (usize, Result<()>)
    ensures bound { result.0 ≤ length buf.new }
    ensures filled { Filled (Promised R.remaining) input.old buf.old 0 result input.new buf.new }
{
    // No `for`: a read takes as many bytes as it likes.
    let mut done = 0;
    while done < buf.len() {
        match input.read(&mut buf[done..]) {
            Ok(0) => break,
            Ok(more) => done += more,
            Err(error) => return (done, Err(error)),
        }
    }
    (done, Ok(()))
}

// One line on standard error: what failed, and the system's reason without its number. No contract can say what is printed: the clause holds of
// every function that returns nothing, and is there because every public function has one.
pub fn complain(rt: &impl Eprint, what: &str, error: Error)
    ensures { result ≡ tt }
{
    let mut text = [0u8; 128];
    let mut room = &mut text[..];
    let _ = write!(room, "{error}");
    let _ = eprintln!(rt; "{what}: {}", reason(&text));
}

fn reason(text: &[u8]) -> &str {
    let Ok(text) = str::from_utf8(text) else {
        return "";
    };
    match text.split_once(" (os error ") {
        Some((reason, _)) => reason,
        None => text.trim_end_matches('\0'),
    }
}

#[cfg(test)]
mod tests {
    use super::*;
    use std::cell::Cell;
    use std::fmt::Display;
    use std::io::ErrorKind;

    // Gives at most `most` bytes in one read. When `stops_at` are left it stops once, and then goes on: it fails with the system's number
    // `code`, or gives nothing if that is 0.
    #[derive(Drop)]
    struct Dripping {
        left: usize,
        most: usize,
        stops_at: usize,
        code: i32,
        // how long the rest of the buffer is, and whether a read was lent anything else
        room: usize,
        misled: bool,
    }

    impl Read for Dripping {
        fn read(&mut self, buf: &mut [u8]) -> Result<usize> {
            self.misled = self.misled || buf.len() != self.room;
            if self.left == self.stops_at {
                self.stops_at = usize::MAX;
                return match self.code {
                    0 => Ok(0),
                    code => Err(Error::from_raw_os_error(code)),
                };
            }
            let before = self.left.saturating_sub(self.stops_at);
            let until = if before > 0 { before } else { self.left };
            let n = buf.len().min(until).min(self.most);
            for (i, b) in buf[..n].iter_mut().enumerate() {
                *b = LETTERS[(5 - self.left.min(5) + i) % 5];
            }
            self.left = self.left.saturating_sub(n);
            self.room = self.room.saturating_sub(n);
            Ok(n)
        }
    }

    const LETTERS: [u8; 5] = *b"12345";

    const NO_SUCH_FILE: i32 = 2;

    const INTERRUPTED: i32 = 4;

    #[test]
    fn reads_until_the_end_a_failure_or_a_full_buffer(rt: HostRuntime) {
        for code in [0, NO_SUCH_FILE, INTERRUPTED] {
            for most in 1..7 {
                for room in 0..8 {
                    // There are five bytes. With 6 the reader does not stop before their end.
                    for stops_at in 0..7 {
                        let mut input = Dripping {
                            left: 5,
                            most,
                            stops_at,
                            code,
                            room,
                            misled: false,
                        };
                        let mut buf = [b'.'; 8];
                        let (n, read) = read_full(&mut input, &mut buf[..room]);
                        let there = if stops_at < 6 { 5 - stops_at } else { 5 };
                        let why = if code != 0 && stops_at < 6 && room > there {
                            Err(Some(code))
                        } else {
                            Ok(())
                        };
                        let told = read.map_err(|e| e.raw_os_error());
                        assert_eq!(rt; n, room.min(there), "{code} {most} {room} {stops_at}");
                        assert_eq!(rt; told, why, "{code} {most} {room} {stops_at}");
                        assert_eq!(rt; input.misled, false, "{code} {most} {room} {stops_at}");
                        assert_eq!(rt; &buf[..n], &LETTERS[..n], "{code} {most} {room} {stops_at}");
                        assert_eq!(rt;
                            &buf[n..],
                            &[b'.'; 8][n..],
                            "{code} {most} {room} {stops_at}"
                        );
                    }
                }
            }
        }
    }

    // Keeps all that is printed, and how many bytes that is.
    #[derive(Drop)]
    struct Heard {
        text: Cell<[u8; 256]>,
        size: Cell<usize>,
    }

    impl Eprint for Heard {
        fn eprint<D: Display + Drop>(&self, value: D) -> Result<()> {
            let mut text = self.text.get();
            let at = self.size.get().min(256);
            let mut left = &mut text[at..];
            let written = write!(left, "{value}");
            let size = 256 - left.len().min(256);
            self.text.set(text);
            self.size.set(size);
            written
        }

        fn eprintln<D: Display + Drop>(&self, value: D) -> Result<()> {
            self.eprint(value)?;
            self.eprint("\n")
        }
    }

    fn complaint(error: Error) -> (usize, [u8; 256]) {
        let heard = Heard {
            text: Cell::new([0; 256]),
            size: Cell::new(0),
        };
        complain(&heard, "standard input", error);
        (heard.size.get(), heard.text.get())
    }

    #[test]
    fn complains_in_one_line_with_the_reason_alone(rt: HostRuntime) {
        let (size, text) = complaint(Error::from(ErrorKind::NotFound));
        assert_eq!(rt; size, 33);
        assert!(rt; text.starts_with(b"standard input: entity not found\n"));
        let (size, text) = complaint(Error::from_raw_os_error(NO_SUCH_FILE));
        assert_eq!(rt; size, 42);
        assert!(rt; text.starts_with(b"standard input: No such file or directory\n"));
    }
}
