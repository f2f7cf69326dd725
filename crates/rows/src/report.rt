//! What is said of the rows: a line each, and at the end how many there are. `run_table` makes it.

ghost use Rattle.std.specs.Prelude.{◌≡◌, ℕ, List, [], ◌++◌, IfErr, IfOk, OnOk, codes};
ghost use Rattle.std.specs.Fmt.{decimal};
ghost use Rattle.nm_base.specs.Limits.{one_more};
ghost use Rattle.rows.specs.Report.{TellsOneMore, whole, with_broken, with_right, with_wrong};

use crate::{RowError, escaped};
use nm_base::{Many, NoMemory};
use std::alloc::Global;
use std::marker::Model;

/// The lines of the report, and the counts for its last line.
#[derive(Drop)]
pub struct Report {
    alloc: Global,
    lines: Many<u8>,
    ok: usize,
    wrong: usize,
    broken: usize,
}

impl Model for Report {
    ghost use Rattle.rows.specs.Report.{Reported};

    ghost Value = { Reported };

    ghost view = { λ r. record { lines = r.lines; ok = r.ok; wrong = r.wrong; broken = r.broken } };
}

impl Report {
    pub fn new(alloc: Global) -> Report
        ensures { result ≡ record { lines = []; ok = 0; wrong = 0; broken = 0 } }
    {
        Report {
            alloc,
            lines: Many::new(alloc),
            ok: 0,
            wrong: 0,
            broken: 0,
        }
    }

    /// Says how a row went: what it wanted, and what came.
    pub fn compare(
        &mut self,
        name: &[u8],
        number: usize,
        wanted: &[u8],
        got: &Result<Vec<u8>, RowError>,
    ) -> Result<(), NoMemory>
        ensures right { OnOk result (IfOk got.now (λ bytes. bytes.items ≡ wanted.now → self.new ≡ with_right self.old name.now)) }
        ensures wrong { OnOk result (IfOk got.now (λ bytes. ¬ (bytes.items ≡ wanted.now) → (why : List ℕ) × (self.new ≡ with_wrong self.old name.now number why))) }

        // A row that gives nothing did not go right.
        ensures none { OnOk result (IfErr got.now (λ _. self.new.ok ≡ self.old.ok)) }
        ensures told { OnOk result (TellsOneMore self.old self.new) }
    {
        match got {
            Ok(bytes) => self.compare_bytes(name, number, wanted, bytes.as_slice()),
            Err(RowError::Broken(why)) => self.broken(number, why),
            Err(RowError::NoMemory) => self.wrong(name, number, wanted, b"no memory"),
        }
    }

    fn compare_bytes(
        &mut self,
        name: &[u8],
        number: usize,
        wanted: &[u8],
        got: &[u8],
    ) -> Result<(), NoMemory>
        ensures right { OnOk result (got.now ≡ wanted.now → self.new ≡ with_right self.old name.now) }
        ensures wrong { OnOk result (¬ (got.now ≡ wanted.now) → (why : List ℕ) × (self.new ≡ with_wrong self.old name.now number why)) }
        ensures told { OnOk result (TellsOneMore self.old self.new) }
    {
        if got == wanted {
            self.right(name)
        } else {
            self.wrong(name, number, wanted, got)
        }
    }

    fn right(&mut self, name: &[u8]) -> Result<(), NoMemory>
        ensures line { OnOk result (self.new ≡ with_right self.old name.now) }
        ensures told { OnOk result (TellsOneMore self.old self.new) }
    {
        self.ok = one_more(self.ok);
        self.lines.extend_from_slice(b"ok ")?;
        self.lines.extend_from_slice(name)?;
        self.lines.extend_from_slice(b"\n")?;
        Ok(())
    }

    fn wrong(
        &mut self,
        name: &[u8],
        number: usize,
        wanted: &[u8],
        got: &[u8],
    ) -> Result<(), NoMemory>
        ensures line { OnOk result ((why : List ℕ) × (self.new ≡ with_wrong self.old name.now number why)) }
        ensures told { OnOk result (TellsOneMore self.old self.new) }
    {
        self.wrong = one_more(self.wrong);
        let why = difference(self.alloc, wanted, got)?;
        push_place(self.alloc, &mut self.lines, name, number)?;
        self.lines.extend_from_slice(why.as_slice())?;
        Ok(())
    }

    /// Says why a row can't be read.
    pub fn broken(&mut self, number: usize, why: &str) -> Result<(), NoMemory>
        ensures line { OnOk result (self.new ≡ with_broken self.old number why.now) }
        ensures told { OnOk result (TellsOneMore self.old self.new) }
    {
        self.broken = one_more(self.broken);
        self.lines.extend_from_slice(b"BROKEN ROW line ")?;
        push_number(self.alloc, &mut self.lines, number)?;
        self.lines.extend_from_slice(b": ")?;
        self.lines.extend_from_slice(why.as_bytes())?;
        self.lines.extend_from_slice(b"\n")?;
        Ok(())
    }

    /// The whole report; its last line has the counts.
    pub fn finish(self) -> Result<Many<u8>, NoMemory>
        ensures { IfOk result (λ report. report ≡ whole self) }
    {
        let Report {
            alloc,
            mut lines,
            ok,
            wrong,
            broken,
        } = self;
        push_number(alloc, &mut lines, ok)?;
        lines.extend_from_slice(b" ok, ")?;
        push_number(alloc, &mut lines, wrong)?;
        lines.extend_from_slice(b" wrong, ")?;
        push_number(alloc, &mut lines, broken)?;
        lines.extend_from_slice(b" broken\n")?;
        Ok(lines)
    }
}

fn one_more(count: usize) -> usize
    ensures { result ≡ one_more count }
{
    count.saturating_add(1)
}

/// The name of a wrong row, and its line in the table.
fn push_place(
    alloc: Global,
    lines: &mut Many<u8>,
    name: &[u8],
    number: usize,
) -> Result<(), NoMemory>
    ensures { OnOk result (lines.new ≡ lines.old ++ codes "WRONG " ++ name.now ++ codes " (line " ++ decimal number ++ codes ")") }
{
    lines.extend_from_slice(b"WRONG ")?;
    lines.extend_from_slice(name)?;
    lines.extend_from_slice(b" (line ")?;
    push_number(alloc, lines, number)?;
    lines.extend_from_slice(b")")?;
    Ok(())
}

fn push_number(alloc: Global, lines: &mut Many<u8>, number: usize) -> Result<(), NoMemory>
    ensures { OnOk result (lines.new ≡ lines.old ++ decimal number) }
{
    let text = number.to_string(alloc)?;
    lines.extend_from_slice(text.as_bytes())?;
    Ok(())
}

/// What is said of a wrong row after its place.
fn difference(alloc: Global, wanted: &[u8], got: &[u8]) -> Result<Many<u8>, NoMemory> {
    let mut text = Many::from_slice(alloc, b": wanted ")?;
    text.extend_from_slice(escaped(alloc, wanted)?.as_slice())?;
    text.extend_from_slice(b", got ")?;
    text.extend_from_slice(escaped(alloc, got)?.as_slice())?;
    text.push(b'\n')?;
    Ok(text)
}
