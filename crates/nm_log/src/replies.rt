//! The texts of replies and refusals: `nm_session` makes each line's text with it, and `nm_top` that of a call.

ghost use Rattle.std.specs.Prelude.{◌≡◌, ◌++◌, IfOk, OnOk};
ghost use Rattle.std.specs.Fmt.{decimal};
ghost use Rattle.std.specs.List.{flat_map};
ghost use Rattle.nm_model_answer.specs.NewText.{is_quiet, new_text, number_after, skip_line, skip_name, summary_line};
ghost use Rattle.nm_model_answer.specs.RenameOutcomes.{sync_text, unmoved_line, unmoved_name};
ghost use Rattle.nm_model_answer.specs.Restore.{stranger_line, strangers_text};
ghost use Rattle.nm_log.specs.Replies.{bad_line, date_line, gone_line, is_well, kind_name, limit_line, limit_name, line_kind_name, not_one_line, query_kind_name, query_line, refusal_line, status_of, usage_line};

use crate::Outcome;
use itoa::Buffer;
use nm_base::{Limit, MailPath, Many, MessageId, NoMemory, Skip, Text, UsageKind};
use nm_model_answer::{NewReport, SyncReport, Unmoved};
use nm_query::QueryKind;
use nm_tags::LineKind;
use std::alloc::Global;

/// The status of a line that ended so.
pub fn line_status(outcome: &Outcome) -> u8
    ensures { result ≡ status_of outcome.now }
{
    match outcome {
        Outcome::Ok => 0,
        Outcome::BadQuery { .. }
        | Outcome::BadDate { .. }
        | Outcome::BadLine { .. }
        | Outcome::NotOne { .. }
        | Outcome::Gone { .. } => 1,
        Outcome::Usage { .. } => 2,
        Outcome::MailFault => 3,
        Outcome::DiskFault | Outcome::Closed { .. } => 4,
        Outcome::Limit(_) => 9,
        Outcome::NoMemory => 7,
    }
}

/// Whether a line went well.
pub fn is_well(outcome: &Outcome) -> bool
    ensures { result ≡ is_well outcome.now }
{
    match outcome {
        Outcome::Ok => true,
        Outcome::Usage { .. }
        | Outcome::BadQuery { .. }
        | Outcome::BadDate { .. }
        | Outcome::BadLine { .. }
        | Outcome::NotOne { .. }
        | Outcome::Gone { .. }
        | Outcome::MailFault
        | Outcome::DiskFault
        | Outcome::Closed { .. }
        | Outcome::Limit(_)
        | Outcome::NoMemory => false,
    }
}

/// The kind as it is printed.
pub(crate) fn kind_name(kind: UsageKind) -> &'static str
    ensures { result.now ≡ kind_name kind }
{
    match kind {
        UsageKind::Command => "command",
        UsageKind::Option => "option",
        UsageKind::Value => "value",
        UsageKind::Repeat => "repeat",
        UsageKind::Missing => "missing",
        UsageKind::Extra => "extra",
        UsageKind::Tag => "tag",
        UsageKind::Clash => "clash",
        UsageKind::Lane => "lane",
        UsageKind::Input => "input",
        UsageKind::Utf8 => "utf8",
    }
}

/// The line that refuses words.
pub fn usage_line(alloc: Global, kind: UsageKind, word: &Text) -> Result<Many<u8>, NoMemory>
    ensures { IfOk result (λ text. text ≡ usage_line kind word.now) }
{
    let kind = kind_name(kind);
    let mut text = Many::from_slice(alloc, b"notmuch: usage: ")?;
    text.extend_from_slice(kind.as_bytes())?;
    text.extend_from_slice(b": ")?;
    text.extend_from_slice(word.as_bytes())?;
    text.extend_from_slice(b"\n")?;
    Ok(text)
}

/// What is wrong with a query, as it is printed.
fn query_kind_name(kind: QueryKind) -> &'static str
    ensures { result.now ≡ query_kind_name kind }
{
    match kind {
        QueryKind::Quote => "quote",
        QueryKind::Paren => "paren",
        QueryKind::Operand => "operand",
        QueryKind::Value => "value",
        QueryKind::NotHere => "nothere",
    }
}

fn query_line(alloc: Global, kind: QueryKind, at: u32) -> Result<Many<u8>, NoMemory>
    ensures { IfOk result (λ text. text ≡ query_line kind at) }
{
    let kind = query_kind_name(kind);
    let mut text = Many::from_slice(alloc, b"notmuch: query: ")?;
    text.extend_from_slice(kind.as_bytes())?;
    text.extend_from_slice(b" at ")?;
    add_number(&mut text, u64::from(at))?;
    text.extend_from_slice(b"\n")?;
    Ok(text)
}

fn date_line(alloc: Global, at: u32) -> Result<Many<u8>, NoMemory>
    ensures { IfOk result (λ text. text ≡ date_line at) }
{
    let mut text = Many::from_slice(alloc, b"notmuch: date: at ")?;
    add_number(&mut text, u64::from(at))?;
    text.extend_from_slice(b"\n")?;
    Ok(text)
}

/// What is wrong with a line of an input, as it is printed.
fn line_kind_name(kind: LineKind) -> &'static str
    ensures { result.now ≡ line_kind_name kind }
{
    match kind {
        LineKind::Utf8 => "utf8",
        LineKind::Tag => "tag",
        LineKind::Query => "query",
        LineKind::Form => "form",
    }
}

fn bad_line(alloc: Global, line: u32, kind: LineKind) -> Result<Many<u8>, NoMemory>
    ensures { IfOk result (λ text. text ≡ bad_line line kind) }
{
    let kind = line_kind_name(kind);
    let mut text = Many::from_slice(alloc, b"notmuch: line ")?;
    add_number(&mut text, u64::from(line))?;
    text.extend_from_slice(b": ")?;
    text.extend_from_slice(kind.as_bytes())?;
    text.extend_from_slice(b"\n")?;
    Ok(text)
}

fn not_one_line(alloc: Global, found: u64) -> Result<Many<u8>, NoMemory>
    ensures { IfOk result (λ text. text ≡ not_one_line found) }
{
    let mut text = Many::from_slice(alloc, b"notmuch: ")?;
    add_number(&mut text, found)?;
    text.extend_from_slice(b" messages match\n")?;
    Ok(text)
}

fn gone_line(alloc: Global, path: &MailPath) -> Result<Many<u8>, NoMemory>
    ensures { IfOk result (λ text. text ≡ gone_line path.now) }
{
    let mut text = Many::from_slice(alloc, b"notmuch: gone: ")?;
    text.extend_from_slice(path.text().as_bytes())?;
    text.extend_from_slice(b"\n")?;
    Ok(text)
}

/// The bound as it is printed.
pub(crate) fn limit_name(limit: Limit) -> &'static str
    ensures { result.now ≡ limit_name limit }
{
    match limit {
        Limit::Files => "files",
        Limit::Dirs => "dirs",
        Limit::Depth => "depth",
        Limit::IndexBytes => "indexbytes",
        Limit::CommitBytes => "commitbytes",
        Limit::InputBytes => "inputbytes",
        Limit::Lines => "lines",
        Limit::Commits => "commits",
        Limit::QueryBytes => "querybytes",
        Limit::QueryDepth => "querydepth",
        Limit::ShowBytes => "showbytes",
        Limit::Numbers => "numbers",
    }
}

fn limit_line(alloc: Global, limit: Limit) -> Result<Many<u8>, NoMemory>
    ensures { IfOk result (λ text. text ≡ limit_line limit) }
{
    let name = limit_name(limit);
    let mut text = Many::from_slice(alloc, b"notmuch: limit: ")?;
    text.extend_from_slice(name.as_bytes())?;
    text.extend_from_slice(b"\n")?;
    Ok(text)
}

/// The line of a refusal, empty for an Ok.
pub fn refusal_line(alloc: Global, outcome: &Outcome) -> Result<Many<u8>, NoMemory>
    ensures { IfOk result (λ text. text ≡ refusal_line outcome.now) }
{
    match outcome {
        Outcome::Ok => Ok(Many::new(alloc)),
        Outcome::Usage { word, kind } => usage_line(alloc, *kind, word),
        Outcome::BadQuery { at, kind } => query_line(alloc, *kind, *at),
        Outcome::BadDate { at } => date_line(alloc, *at),
        Outcome::BadLine { line, kind } => bad_line(alloc, *line, *kind),
        Outcome::NotOne { found } => not_one_line(alloc, *found),
        Outcome::Gone { path } => gone_line(alloc, path),
        Outcome::MailFault => Many::from_slice(alloc, b"notmuch: mail fault\n"),
        Outcome::DiskFault => Many::from_slice(alloc, b"notmuch: disk fault\n"),
        Outcome::Closed { .. } => Many::from_slice(alloc, b"notmuch: closed by a disk fault\n"),
        Outcome::Limit(limit) => limit_line(alloc, *limit),
        Outcome::NoMemory => Many::from_slice(alloc, b"notmuch: no memory\n"),
    }
}

/// The reply of `new`.
pub fn new_text(alloc: Global, report: &NewReport) -> Result<Many<u8>, NoMemory>
    ensures { IfOk result (λ text. text ≡ new_text report.now) }
{
    if is_quiet(report) {
        return Many::from_slice(alloc, b"No new mail.\n");
    }
    let mut text = summary_line(alloc, report)?;
    add_skips(&mut text, report.skipped.as_slice())?;
    Ok(text)
}

fn is_quiet(report: &NewReport) -> bool
    ensures { result ≡ is_quiet report.now }
{
    report.added == 0 && report.removed == 0 && report.skipped.is_empty()
}

fn summary_line(alloc: Global, report: &NewReport) -> Result<Many<u8>, NoMemory>
    ensures { IfOk result (λ text. text ≡ summary_line report.now) }
{
    let numbers: [(&str, u64); 5] = [
        ("Files: +", report.added),
        (" -", report.removed),
        (", skipped ", report.skipped.len() as u64),
        (". Messages: +", report.born),
        (" -", report.died),
    ];
    let mut text = Many::new(alloc);
    add_numbers(&mut text, &numbers)?;
    text.extend_from_slice(b".\n")?;
    Ok(text)
}

fn add_numbers(text: &mut Many<u8>, numbers: &[(&str, u64)]) -> Result<(), NoMemory>
    ensures { OnOk result (text.new ≡ text.old ++ flat_map (λ n. number_after n.0.now n.1) numbers.now) }
{
    'numbers: for (before, n) in numbers {
        text.extend_from_slice(before.as_bytes())?;
        add_number(text, *n)?;
    }
    Ok(())
}

fn add_number(text: &mut Many<u8>, n: u64) -> Result<(), NoMemory>
    ensures { OnOk result (text.new ≡ text.old ++ decimal n) }
{
    let mut buffer = Buffer::new();
    text.extend_from_slice(buffer.format(n).as_bytes())?;
    Ok(())
}

fn add_skips(text: &mut Many<u8>, all: &[(MailPath, Skip)]) -> Result<(), NoMemory>
    ensures { OnOk result (text.new ≡ text.old ++ flat_map skip_line all.now) }
{
    'files: for skipped in all {
        add_skip(text, skipped)?;
    }
    Ok(())
}

fn add_skip(text: &mut Many<u8>, skipped: &(MailPath, Skip)) -> Result<(), NoMemory>
    ensures { OnOk result (text.new ≡ text.old ++ skip_line skipped.now) }
{
    let why = skip_name(skipped.1);
    text.extend_from_slice(b"skipped: ")?;
    text.extend_from_slice(why.as_bytes())?;
    text.extend_from_slice(b" ")?;
    text.extend_from_slice(skipped.0.text().as_bytes())?;
    text.extend_from_slice(b"\n")?;
    Ok(())
}

fn skip_name(skip: Skip) -> &'static str
    ensures { result.now ≡ skip_name skip }
{
    match skip {
        Skip::NotMail => "not mail",
        Skip::Missing => "missing",
        Skip::TooLong => "too long",
    }
}

/// The reply to what sets tags: a line for each id that no message has, and one for each file that keeps its name.
pub fn change_reply(
    alloc: Global,
    strangers: &Many<MessageId>,
    report: &SyncReport,
) -> Result<Many<u8>, NoMemory>
    ensures { IfOk result (λ text. text ≡ strangers_text strangers.now ++ sync_text report.now) }
{
    let mut text = Many::new(alloc);
    add_strangers(&mut text, strangers.as_slice())?;
    add_all_unmoved(&mut text, report.unmoved.as_slice())?;
    Ok(text)
}

fn add_strangers(text: &mut Many<u8>, strangers: &[MessageId]) -> Result<(), NoMemory>
    ensures { OnOk result (text.new ≡ text.old ++ strangers_text strangers.now) }
{
    'strangers: for id in strangers {
        add_stranger(text, id)?;
    }
    Ok(())
}

fn add_stranger(text: &mut Many<u8>, id: &MessageId) -> Result<(), NoMemory>
    ensures { OnOk result (text.new ≡ text.old ++ stranger_line id.now) }
{
    text.extend_from_slice(b"Warning: no message: id:")?;
    text.extend_from_slice(id.text().as_bytes())?;
    text.extend_from_slice(b"\n")?;
    Ok(())
}

fn add_all_unmoved(text: &mut Many<u8>, all: &[(MailPath, Unmoved)]) -> Result<(), NoMemory>
    ensures { OnOk result (text.new ≡ text.old ++ flat_map unmoved_line all.now) }
{
    'files: for unmoved in all {
        add_unmoved(text, unmoved)?;
    }
    Ok(())
}

fn add_unmoved(text: &mut Many<u8>, unmoved: &(MailPath, Unmoved)) -> Result<(), NoMemory>
    ensures { OnOk result (text.new ≡ text.old ++ unmoved_line unmoved.now) }
{
    let why = unmoved_name(unmoved.1);
    text.extend_from_slice(b"not renamed: ")?;
    text.extend_from_slice(why.as_bytes())?;
    text.extend_from_slice(b" ")?;
    text.extend_from_slice(unmoved.0.text().as_bytes())?;
    text.extend_from_slice(b"\n")?;
    Ok(())
}

fn unmoved_name(unmoved: Unmoved) -> &'static str
    ensures { result.now ≡ unmoved_name unmoved }
{
    match unmoved {
        Unmoved::Missing => "missing",
        Unmoved::Exists => "exists",
        Unmoved::Long => "long",
    }
}
