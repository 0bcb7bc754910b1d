//! Bytes that don't show: what a line of a file stands for, and how bytes are shown.

use crate::trouble::Trouble;
use std::alloc::{AllocError, Global};

/// The bytes that a line stands for, without a line feed at its end, and whether the line ends with a single `\`.
/// `\n`, `\r` and `\t` stand for a line feed, a carriage return and a tab, `\\` and `\}` for themselves without the `\`,
/// `\x` and two digits for that byte, and `\{5 ab}` for `ab` five times, also with another such in place of `ab`.
pub fn meant(alloc: Global, line: &[u8]) -> Result<(Vec<u8>, bool), Trouble> {
    let mut reader = Reader::new(alloc);
    for byte in line {
        reader.take(alloc, *byte)?;
    }
    reader.ended()
}

// What the next byte is to be read as.
#[derive(Clone, Copy)]
enum Mode {
    Plain,
    Behind,
    FirstDigit,
    SecondDigit(u8),
    Count(u32),
}

// A text that is to stand so often.
#[derive(Drop)]
struct Repeated {
    count: u32,
    text: Vec<u8>,
}

#[derive(Drop)]
struct Reader {
    out: Vec<u8>,
    open: Vec<Repeated>,
    mode: Mode,
}

impl Reader {
    fn new(alloc: Global) -> Reader {
        Reader {
            out: Vec::new(alloc),
            open: Vec::new(alloc),
            mode: Mode::Plain,
        }
    }

    fn take(&mut self, alloc: Global, byte: u8) -> Result<(), Trouble> {
        self.mode = match self.mode {
            Mode::Plain => self.plain(byte)?,
            Mode::Behind => self.behind(byte)?,
            Mode::FirstDigit => Mode::SecondDigit(digit(byte)?),
            Mode::SecondDigit(high) => {
                let byte = high.saturating_mul(16).saturating_add(digit(byte)?);
                self.push(byte)?;
                Mode::Plain
            }
            Mode::Count(count) => self.counted(alloc, count, byte)?,
        };
        Ok(())
    }

    fn plain(&mut self, byte: u8) -> Result<Mode, Trouble> {
        match byte {
            b'\\' => Ok(Mode::Behind),
            b'}' => {
                self.close()?;
                Ok(Mode::Plain)
            }
            _ => {
                self.push(byte)?;
                Ok(Mode::Plain)
            }
        }
    }

    fn behind(&mut self, byte: u8) -> Result<Mode, Trouble> {
        match byte {
            b'n' => self.push(b'\n')?,
            b'r' => self.push(b'\r')?,
            b't' => self.push(b'\t')?,
            b'\\' | b'}' => self.push(byte)?,
            b'x' => return Ok(Mode::FirstDigit),
            b'{' => return Ok(Mode::Count(0)),
            _ => return Err(Trouble::BadInput),
        }
        Ok(Mode::Plain)
    }

    fn counted(&mut self, alloc: Global, count: u32, byte: u8) -> Result<Mode, Trouble> {
        match byte {
            b'0'..=b'9' => {
                let digit = u32::from(byte - b'0');
                Ok(Mode::Count(count.saturating_mul(10).saturating_add(digit)))
            }
            b' ' => {
                self.open.push(Repeated {
                    count,
                    text: Vec::new(alloc),
                })?;
                Ok(Mode::Plain)
            }
            _ => Err(Trouble::BadInput),
        }
    }

    // One more byte, of the innermost text that is to be repeated if there is one.
    fn push(&mut self, byte: u8) -> Result<(), Trouble> {
        match self.open.last_mut() {
            Some(repeated) => repeated.text.push(byte)?,
            None => self.out.push(byte)?,
        }
        Ok(())
    }

    // Some bytes more, as `push` has them.
    fn push_all(&mut self, bytes: &[u8]) -> Result<(), Trouble> {
        match self.open.last_mut() {
            Some(repeated) => repeated.text.extend_from_slice(bytes)?,
            None => self.out.extend_from_slice(bytes)?,
        }
        Ok(())
    }

    // The end of a text that is to be repeated, or a brace.
    fn close(&mut self) -> Result<(), Trouble> {
        let Some(repeated) = self.open.pop() else {
            self.out.push(b'}')?;
            return Ok(());
        };
        for _ in 0..repeated.count {
            self.push_all(&repeated.text)?;
        }
        Ok(())
    }

    fn ended(self) -> Result<(Vec<u8>, bool), Trouble> {
        let Reader { out, open, mode } = self;
        if !open.is_empty() {
            return Err(Trouble::BadInput);
        }
        match mode {
            Mode::Plain => Ok((out, false)),
            Mode::Behind => Ok((out, true)),
            _ => Err(Trouble::BadInput),
        }
    }
}

fn digit(byte: u8) -> Result<u8, Trouble> {
    match byte {
        b'0'..=b'9' => Ok(byte - b'0'),
        b'a'..=b'f' => Ok(byte - b'a' + 10),
        _ => Err(Trouble::BadInput),
    }
}

/// The first 300 bytes on one line, as a file would have them.
pub fn shown(alloc: Global, bytes: &[u8]) -> Result<Vec<u8>, AllocError> {
    let mut text = Vec::new(alloc);
    for byte in bytes.iter().take(300) {
        match *byte {
            b'\n' => text.extend_from_slice(b"\\n")?,
            b'\r' => text.extend_from_slice(b"\\r")?,
            b'\t' => text.extend_from_slice(b"\\t")?,
            b'\\' => text.extend_from_slice(b"\\\\")?,
            b' '..=b'~' => text.extend_from_slice(&[*byte])?,
            _ => text.extend_from_slice(format!(in alloc; "\\x{:02x}", *byte)?.as_bytes())?,
        }
    }
    if bytes.len() > 300 {
        text.extend_from_slice(format!(in alloc; ".. ({} bytes)", bytes.len())?.as_bytes())?;
    }
    Ok(text)
}
