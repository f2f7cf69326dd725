//! What the lines of one session say, for `sessions` and the devices that it makes. A loop here is over the lines alone: what it calls
//! has the ways out, and owns nothing.

use nm_base::Many;
use rows::{Lines, RowError, RowLine, number_of};
use std::alloc::Global;

/// The first line with this mark.
pub fn line_of<'a>(lines: &'a [RowLine<'_>], mark: &[u8]) -> Option<&'a [u8]> {
    'lines: for line in lines {
        if line.mark == mark {
            return Some(line.bytes.as_slice());
        }
    }
    None
}

/// The texts of the lines with this mark, joined by LF.
pub fn text_of(alloc: Global, lines: &[RowLine<'_>], mark: &[u8]) -> Result<Vec<u8>, RowError> {
    let mut text = Lines::new(alloc);
    'lines: for line in lines {
        if line.mark == mark {
            text.line(line.bytes.as_slice());
        }
    }
    text.into_bytes()
}

/// Adds the numbers of the lines with this mark.
pub fn add_numbers(
    numbers: &mut Many<u64>,
    lines: &[RowLine<'_>],
    mark: &[u8],
) -> Result<(), RowError> {
    'lines: for line in lines {
        if line.mark == mark {
            add_number(numbers, line.bytes.as_slice())?;
        }
    }
    Ok(())
}

fn add_number(numbers: &mut Many<u64>, bytes: &[u8]) -> Result<(), RowError> {
    let number = number_of(bytes)?;
    Ok(numbers.push(number)?)
}

/// Whether a line has this mark and this text.
pub fn says(lines: &[RowLine<'_>], mark: &[u8], text: &[u8]) -> bool {
    'lines: for line in lines {
        if line.mark == mark && line.bytes.as_slice() == text {
            return true;
        }
    }
    false
}
