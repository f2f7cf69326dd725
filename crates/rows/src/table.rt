//! A table is run row by row: the program of `test_mail`, and each like it, says what comes of each.

ghost use Rattle.std.specs.Prelude.{◌≡◌, ⊤, IfOk, OnOk};
ghost use Rattle.rows.specs.Report.{Reported, TellsOneMore, told, whole};
ghost use Rattle.rows.specs.Table.{paragraph_count};

use crate::{Paragraph, Report, Row, RowError, paragraphs, read_row};
use nm_base::{Many, NoMemory};
use std::alloc::Global;
use std::io::{self, ErrorKind, Read, Write};

/// A program that runs rows.
pub trait Program {
    // What holds of a program that may run.
    ghost ready: { Self → Type 0 } = { λ _. ⊤ };

    /// What comes of the row.
    fn answer(&self, alloc: Global, row: &Row<'_>) -> Result<Vec<u8>, RowError>
        requires { ready self.now };
}

/// Runs the table of the standard input, and prints the report on it.
pub fn run_program<P: Program>(rt: &HostRuntime, program: &P) -> io::Result<()>
    requires { P.ready program.now }
{
    let mut table = Vec::new(rt.alloc());
    rt.stdin().read_to_end(&mut table)?;
    match run_table(rt.alloc(), program, table.as_slice()) {
        Ok(report) => rt.stdout().write_all(report.as_slice()),
        Err(NoMemory) => Err(io::Error::from(ErrorKind::OutOfMemory)),
    }
}

/// Runs the rows of the table, and gives the report on them, which tells each row once. The lines `=` of a row are what it wants.
pub fn run_table<P: Program>(alloc: Global, program: &P, table: &[u8]) -> Result<Many<u8>, NoMemory>
    requires { P.ready program.now }
    ensures { IfOk result (λ report. (rows : Reported) × (report ≡ whole rows) × (told rows ≡ paragraph_count table.now)) }
{
    let rows = paragraphs(alloc, table)?;
    let mut report = Report::new(alloc);
    'rows: for paragraph in rows.as_slice() {
        run_paragraph(alloc, program, paragraph, &mut report)?;
    }
    report.finish()
}

fn run_paragraph<P: Program>(
    alloc: Global,
    program: &P,
    paragraph: &Paragraph<'_>,
    report: &mut Report,
) -> Result<(), NoMemory>
    requires { P.ready program.now }
    ensures { OnOk result (TellsOneMore report.old report.new) }
{
    match read_row(alloc, paragraph) {
        Ok(row) => run_row(alloc, program, &row, report),
        Err(RowError::Broken(why)) => report.broken(paragraph.number, why),
        Err(RowError::NoMemory) => Err(NoMemory),
    }
}

fn run_row<P: Program>(
    alloc: Global,
    program: &P,
    row: &Row<'_>,
    report: &mut Report,
) -> Result<(), NoMemory>
    requires { P.ready program.now }
    ensures { OnOk result (TellsOneMore report.old report.new) }
{
    let Ok(wanted) = row.text(alloc, b"=") else {
        return Err(NoMemory);
    };
    let got = program.answer(alloc, row);
    report.compare(row.name, row.number, wanted.as_slice(), &got)
}
