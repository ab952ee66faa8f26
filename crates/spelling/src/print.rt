// How answers are spelled.
use digits::refusal::Refusal;
use std::fmt;

// Two hex digits for each byte, or a dash if there are no bytes.
#[derive(Clone, Copy)]
pub struct Bytes<'a>(pub &'a [u8]);

impl fmt::Display for Bytes<'_> {
    fn fmt<W: fmt::Write>(&self, f: &mut fmt::Formatter<W>) -> fmt::Result {
        if self.0.is_empty() {
            return write!(f, "-");
        }
        for b in self.0 {
            write!(f, "{b:02x}")?;
        }
        Ok(())
    }
}

// A space before each number.
#[derive(Clone, Copy)]
pub struct Numbers<'a>(pub &'a [u32]);

impl fmt::Display for Numbers<'_> {
    fn fmt<W: fmt::Write>(&self, f: &mut fmt::Formatter<W>) -> fmt::Result {
        for n in self.0 {
            write!(f, " {n}")?;
        }
        Ok(())
    }
}

// Equal answers, one after the other: a space, how many there are, a star, and the answer.
#[derive(Clone, Copy)]
pub struct Run<T> {
    pub answer: T,
    pub count: u32,
}

impl<T: fmt::Display> fmt::Display for Run<T> {
    fn fmt<W: fmt::Write>(&self, f: &mut fmt::Formatter<W>) -> fmt::Result {
        write!(f, " {}*{}", self.count, self.answer)
    }
}

// All runs of neighbours that are equal, each spelled as a `Run`.
#[derive(Drop)]
pub struct Runs<'a, T>(pub &'a [T]);

impl<T: PartialEq + fmt::Display> fmt::Display for Runs<'_, T> {
    fn fmt<W: fmt::Write>(&self, f: &mut fmt::Formatter<W>) -> fmt::Result {
        for run in self.0.chunk_by(|a, b| a == b) {
            if let [answer, ..] = run {
                write!(f, " {}*{answer}", run.len())?;
            }
        }
        Ok(())
    }
}

// The three numbers of a refusal; the default is none.
#[derive(Clone, Copy)]
pub struct Told(pub Refusal);

impl fmt::Display for Told {
    fn fmt<W: fmt::Write>(&self, f: &mut fmt::Formatter<W>) -> fmt::Result {
        let t = self.0;
        write!(f, "{} {} {}", t.number, t.offset, t.spoiled)
    }
}

// Numbers with a dot between them.
#[derive(Clone, Copy, PartialEq)]
pub struct Dotted<const N: usize>(pub [u32; N]);

impl<const N: usize> fmt::Display for Dotted<N> {
    fn fmt<W: fmt::Write>(&self, f: &mut fmt::Formatter<W>) -> fmt::Result {
        for (i, n) in self.0.iter().enumerate() {
            if i > 0 {
                write!(f, ".")?;
            }
            write!(f, "{n}")?;
        }
        Ok(())
    }
}

#[cfg(test)]
mod tests {
    use super::*;
    use std::io::Write;

    #[test]
    fn spells_each_run(rt: HostRuntime) {
        let mut text = [0u8; 16];
        let mut left = &mut text[..];
        let _ = write!(left, "{}", Runs(&[7, 7, 7, 0, 7]));
        assert!(rt; text.starts_with(b" 3*7 1*0 1*7\0"));
    }
}
