//! A table is paragraphs, parted by empty lines. Lines that begin with `#` are comments. `run_table` cuts a table so.

ghost use Rattle.std.specs.Prelude.{◌≡◌, ◌==◌, ◌+◌, ◌∷◌, [], length, map, IfOk, OnOk};
ghost use Rattle.std.specs.List.{slice_split};
ghost use Rattle.rows.specs.Table.{begun, is_inside, paragraph_count};

use std::alloc::{AllocError, Global};

/// The lines of a row, as they are in the table.
#[derive(Drop)]
pub struct Paragraph<'a> {
    /// The number of the first line in the table, from 1.
    pub number: usize,
    pub lines: Vec<&'a [u8]>,
}

/// The paragraphs so far, and whether the next line may go on with the last of them.
#[derive(Drop)]
struct ParagraphReader<'a> {
    found: Vec<Paragraph<'a>>,
    inside: bool,
}

/// The paragraphs of a table.
pub fn paragraphs<'a>(alloc: Global, table: &'a [u8]) -> Result<Vec<Paragraph<'a>>, AllocError>
    ensures { IfOk result (λ found. length found.items ≡ paragraph_count table.now) }
{
    let lines = lines_of(alloc, table)?;
    let mut reader = ParagraphReader {
        found: Vec::new(alloc),
        inside: false,
    };
    'lines: for (i, line) in lines.as_slice().iter().enumerate() {
        reader.take(alloc, i.saturating_add(1), line)?;
    }
    let ParagraphReader { found, .. } = reader;
    Ok(found)
}

fn lines_of<'a>(alloc: Global, table: &'a [u8]) -> Result<Vec<&'a [u8]>, AllocError>
    ensures { IfOk result (λ lines. map (λ line. line.now) lines.items ≡ slice_split (λ b. b == 10) table.now) }
{
    table.split(|b| *b == b'\n').collect(alloc)
}

impl<'a> ParagraphReader<'a> {
    fn take(&mut self, alloc: Global, number: usize, line: &'a [u8]) -> Result<(), AllocError>
        ensures count { OnOk result (length self.new.found.items ≡ length self.old.found.items + begun self.old.inside (line.now ∷ [])) }
        ensures inside { OnOk result (self.new.inside ≡ is_inside self.old.inside line.now) }
    {
        if line.is_empty() {
            self.inside = false;
            return Ok(());
        }
        if line[0] == b'#' {
            return Ok(());
        }
        if !self.inside {
            self.found.push(Paragraph {
                number,
                lines: Vec::new(alloc),
            })?;
            self.inside = true;
        }
        self.add_line(line)
    }

    /// Adds a line to the last paragraph.
    fn add_line(&mut self, line: &'a [u8]) -> Result<(), AllocError>
        ensures count { OnOk result (length self.new.found.items ≡ length self.old.found.items) }
        ensures inside { OnOk result (self.new.inside ≡ self.old.inside) }
    {
        if let Some(last) = self.found.last_mut() {
            last.lines.push(line)?;
        }
        Ok(())
    }
}
