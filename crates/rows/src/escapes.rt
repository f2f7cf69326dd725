//! Bytes that are written in a line of a table, as `\n`, `\xNN`, `\{200:a}`: `row` reads them, and `report` writes them.

use crate::RowError;
use std::alloc::{AllocError, Global};

/// What the next byte of a line belongs to.
#[derive(Clone, Copy, PartialEq, Eq)]
enum State {
    Plain,
    /// A backslash comes before it.
    Escape,
    /// The first digit of `\xNN`.
    High,
    /// The second digit, after this value of the first.
    Low(u8),
    /// How often a text is repeated, so far.
    Times(usize),
}

/// A text that is repeated: where it begins, and how often it occurs.
#[derive(Clone, Copy)]
struct Repeat {
    from: usize,
    times: usize,
}

#[derive(Drop)]
struct Unescaping {
    bytes: Vec<u8>,
    state: State,
    repeat: Option<Repeat>,
}

/// The bytes that a line represents.
pub fn unescaped(alloc: Global, line: &[u8]) -> Result<Vec<u8>, RowError> {
    let mut unescaping = Unescaping {
        bytes: Vec::new(alloc),
        state: State::Plain,
        repeat: None,
    };
    'bytes: for byte in line {
        unescaping.take(*byte)?;
    }
    unescaping.finish()
}

impl Unescaping {
    fn take(&mut self, byte: u8) -> Result<(), RowError> {
        match self.state {
            State::Plain => self.plain(byte),
            State::Escape => self.escape(byte),
            State::High => self.high(byte),
            State::Low(high) => self.low(high, byte),
            State::Times(times) => self.times(times, byte),
        }
    }

    fn plain(&mut self, byte: u8) -> Result<(), RowError> {
        if byte == b'\\' {
            self.state = State::Escape;
            return Ok(());
        }
        if byte == b'}' {
            if let Some(repeat) = self.repeat {
                self.repeat = None;
                return self.repeat_all(repeat);
            }
        }
        self.bytes.push(byte)?;
        Ok(())
    }

    /// The text is there once.
    fn repeat_all(&mut self, repeat: Repeat) -> Result<(), RowError> {
        let Some(text) = self.bytes.get(repeat.from..) else {
            return Err(RowError::Broken("a repeated text has no place"));
        };
        let text = text.to_vec(*self.bytes.allocator())?;
        self.bytes.truncate(repeat.from);
        'times: for _ in 0..repeat.times {
            self.bytes.extend_from_slice(text.as_slice())?;
        }
        Ok(())
    }

    fn escape(&mut self, byte: u8) -> Result<(), RowError> {
        match byte {
            b'x' => self.state = State::High,
            b'{' => self.state = State::Times(0),
            b'n' => self.plain_byte(b'\n')?,
            b'r' => self.plain_byte(b'\r')?,
            b't' => self.plain_byte(b'\t')?,
            b'\\' | b'}' => self.plain_byte(byte)?,
            _ => return Err(RowError::Broken("no such escape")),
        }
        Ok(())
    }

    fn plain_byte(&mut self, byte: u8) -> Result<(), RowError> {
        self.state = State::Plain;
        self.bytes.push(byte)?;
        Ok(())
    }

    fn high(&mut self, byte: u8) -> Result<(), RowError> {
        match hex_value(byte) {
            Some(value) => {
                self.state = State::Low(value);
                Ok(())
            }
            None => Err(RowError::Broken("no hexadecimal digit after \\x")),
        }
    }

    fn low(&mut self, high: u8, byte: u8) -> Result<(), RowError> {
        match hex_value(byte) {
            Some(value) => self.plain_byte(high.wrapping_mul(16) | value),
            None => Err(RowError::Broken("one hexadecimal digit after \\x")),
        }
    }

    fn times(&mut self, times: usize, byte: u8) -> Result<(), RowError> {
        if byte == b':' && self.repeat.is_none() {
            self.state = State::Plain;
            self.repeat = Some(Repeat {
                from: self.bytes.len(),
                times,
            });
            return Ok(());
        }
        match byte {
            b'0'..=b'9' => {
                let digit = usize::from(byte - b'0');
                self.state = State::Times(times.saturating_mul(10).saturating_add(digit));
                Ok(())
            }
            _ => Err(RowError::Broken("a repeated text is \\{TIMES:TEXT}")),
        }
    }

    fn finish(self) -> Result<Vec<u8>, RowError> {
        if self.state != State::Plain || self.repeat.is_some() {
            return Err(RowError::Broken("an escape without its end"));
        }
        let Unescaping { bytes, .. } = self;
        Ok(bytes)
    }
}

fn hex_value(byte: u8) -> Option<u8> {
    match byte {
        b'0'..=b'9' => Some(byte - b'0'),
        b'a'..=b'f' => Some(byte - b'a' + 10),
        b'A'..=b'F' => Some(byte - b'A' + 10),
        _ => None,
    }
}

/// The bytes in one line, as a table would have them. Bytes that are no UTF-8 are written as `\xNN`.
pub fn escaped(alloc: Global, bytes: &[u8]) -> Result<Vec<u8>, AllocError> {
    let is_text = str::from_utf8(bytes).is_ok();
    let mut line = Vec::new(alloc);
    'bytes: for byte in bytes {
        push_escaped(&mut line, *byte, is_text)?;
    }
    Ok(line)
}

fn push_escaped(line: &mut Vec<u8>, byte: u8, is_text: bool) -> Result<(), AllocError> {
    match byte {
        b'\n' => line.extend_from_slice(b"\\n")?,
        b'\r' => line.extend_from_slice(b"\\r")?,
        b'\t' => line.extend_from_slice(b"\\t")?,
        b'\\' => line.extend_from_slice(b"\\\\")?,
        b' '..=b'~' => line.push(byte)?,
        _ if is_text && byte >= 0x80 => line.push(byte)?,
        _ => push_hex(line, byte)?,
    }
    Ok(())
}

fn push_hex(line: &mut Vec<u8>, byte: u8) -> Result<(), AllocError> {
    line.extend_from_slice(b"\\x")?;
    line.push(hex_digit(byte >> 4))?;
    line.push(hex_digit(byte & 15))?;
    Ok(())
}

fn hex_digit(value: u8) -> u8 {
    match value {
        0..=9 => b'0' + value,
        10..=15 => b'A' + (value - 10),
        _ => b'?',
    }
}
