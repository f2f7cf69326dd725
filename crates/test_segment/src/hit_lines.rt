//! Hits as rows have them, for `block_rows` and `segment_rows`: `5 0 2`, or `5 0 2 to 4` for places that follow one another.

ghost use Rattle.std.specs.Prelude.{◌≤◌, length};

use nm_base::Many;
use nm_blocks::Hit;
use rows::{Lines, Row, RowError, cut, number_of};
use std::alloc::Global;

/// The hits of the lines `|`.
pub fn hits_of(alloc: Global, row: &Row<'_>) -> Result<Many<Hit>, RowError> {
    let mut hits = Many::new(alloc);
    'lines: for line in row.lines.as_slice() {
        if line.mark == b"|".as_slice() {
            add_hits(&mut hits, line.bytes.as_slice())?;
        }
    }
    Ok(hits)
}

/// Adds the hits of a line.
fn add_hits(hits: &mut Many<Hit>, line: &[u8]) -> Result<(), RowError> {
    let (doc, rest) = cut(line, b' ');
    let (list, rest) = cut(rest, b' ');
    let (place, rest) = cut(rest, b' ');
    let first = Hit {
        doc: small_of(doc)?,
        list: small_of(list)?,
        place: small_of(place)?,
    };
    let last = last_of(first.place, rest)?;
    'places: for place in first.place..=last {
        hits.push(Hit { place, ..first })?;
    }
    Ok(())
}

/// The last place: the first one, or what comes after `to`.
fn last_of(first: u32, text: &[u8]) -> Result<u32, RowError> {
    match text {
        [] => Ok(first),
        [b't', b'o', b' ', place @ ..] => small_of(place),
        _ => Err(RowError::Broken("a hit is DOCUMENT LIST PLACE")),
    }
}

/// A number of 32 bits.
pub fn small_of(bytes: &[u8]) -> Result<u32, RowError> {
    match u32::try_from(number_of(bytes)?) {
        Ok(number) => Ok(number),
        Err(_) => Err(RowError::Broken("a number of more than 32 bits")),
    }
}

/// A line of all hits, or of a dash where there are none.
pub fn push_hits(hits: &[Hit], lines: &mut Lines) {
    lines.begin();
    if hits.is_empty() {
        lines.push(b"-");
    }
    let mut gap: &[u8] = b"";
    let mut rest = hits;
    'stretches: while let Some((first, others)) = rest.split_first() {
        let count = following(first, others);
        lines.push(gap);
        push_stretch(first, count, lines);
        gap = b", ";
        rest = &others[count..];
    }
}

/// How many hits are at the places that follow.
fn following(first: &Hit, others: &[Hit]) -> usize
    ensures { result ≤ length others.now }
{
    let mut next = first.place;
    'others: for (at, hit) in others.iter().enumerate() {
        next = next.saturating_add(1);
        if (hit.doc, hit.list, hit.place) != (first.doc, first.list, next) {
            return at;
        }
    }
    others.len()
}

/// A hit, and n at the places that follow.
fn push_stretch(first: &Hit, count: usize, lines: &mut Lines) {
    push_numbers(&[first.doc, first.list, first.place], lines);
    if count > 0 {
        lines.push(b" to ");
        lines.push_number(u64::from(first.place).saturating_add(count as u64));
    }
}

/// Numbers with blanks between them.
pub fn push_numbers(numbers: &[u32], lines: &mut Lines) {
    let mut gap: &[u8] = b"";
    'numbers: for number in numbers {
        lines.push(gap);
        lines.push_number(u64::from(*number));
        gap = b" ";
    }
}
