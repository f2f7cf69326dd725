//! Rows on the lines of scripts, for `answers`: what a line asks for, or how it is refused.

use nm_base::{
    CountAsk, DumpAsk, DumpForm, Many, NoMemory, Output, ReadForm, RestoreAsk, SearchAsk, ShowAsk,
    TagAsk, TagOp, Text, UsageKind,
};
use nm_io::MemSink;
use nm_lanes::{Phase, Script, ScriptError, ScriptLine, read_script};
use nm_log::{ParsedLine, parse_line, print_usage, usage_line};
use nm_model_answer::Request;
use rows::{Lines, Row, RowError, cut};
use std::alloc::Global;

/// What each line `|` asks for.
pub fn answer(alloc: Global, row: &Row<'_>) -> Result<Vec<u8>, RowError> {
    row.has_only(&[b"|", b"="])?;
    let mut answers = Lines::new(alloc);
    'lines: for line in row.lines.as_slice() {
        if line.mark == b"|".as_slice() {
            add_script(
                &mut answers,
                alloc,
                read_script(alloc, line.bytes.as_slice()),
            );
        }
    }
    answers.into_bytes()
}

/// What the one line of this script asks for, or `nothing` where it has none. That memory ran out no row wants.
fn add_script(answers: &mut Lines, alloc: Global, script: Result<Script, ScriptError>) {
    match script {
        Ok(script) => add_phases(answers, alloc, script.phases.as_slice()),
        Err(ScriptError::Limit(_)) => answers.line(b"it passes a limit"),
        Err(ScriptError::NoMemory) => answers.line(b"no memory"),
    }
}

fn add_phases(answers: &mut Lines, alloc: Global, phases: &[Phase]) {
    match phases {
        [phase] => add_lines(answers, alloc, phase.lines.as_slice()),
        _ => answers.line(b"more than a phase"),
    }
}

fn add_lines(answers: &mut Lines, alloc: Global, lines: &[ScriptLine]) {
    match lines {
        [] => answers.line(b"nothing"),
        [line, ..] => add_line(answers, alloc, parse_line(alloc, line)),
    }
}

fn add_line(answers: &mut Lines, alloc: Global, parsed: Result<ParsedLine, NoMemory>) {
    match parsed {
        Ok(parsed) => add_parsed(answers, alloc, &parsed),
        Err(NoMemory) => answers.line(b"no memory"),
    }
}

fn add_parsed(answers: &mut Lines, alloc: Global, parsed: &ParsedLine) {
    match parsed {
        ParsedLine::Request(request) => add_request(answers, request),
        ParsedLine::Usage { word, kind } => {
            add_refusal(answers, alloc, *kind, word, usage_line(alloc, *kind, word));
        }
    }
}

fn add_request(answers: &mut Lines, request: &Request) {
    match request {
        Request::New => answers.line(b"new"),
        Request::Count(ask) => add_count(answers, ask),
        Request::Search(ask) => add_search(answers, ask),
        Request::Dump(ask) => add_dump(answers, ask),
        Request::Show(ask) => add_show(answers, ask),
        Request::Tag(ask) => add_tag(answers, ask),
        Request::Restore(ask) => add_restore(answers, ask),
    }
}

/// `count QUERY` where no option says otherwise, and else all of them before the query.
fn add_count(answers: &mut Lines, ask: &CountAsk) {
    answers.line(b"count");
    if ask.output != Output::Messages || !ask.exclude || ask.batch {
        answers.push_after_blank(output_name(ask.output));
        push_if(answers, ask.batch, b", batch");
        push_excludes(answers, ask.exclude);
    }
    answers.push_after_blank(ask.query.as_bytes());
}

fn push_if(answers: &mut Lines, holds: bool, text: &[u8]) {
    if holds {
        answers.push(text);
    }
}

fn push_excludes(answers: &mut Lines, excludes: bool) {
    answers.push(if excludes {
        b", exclude true:".as_slice()
    } else {
        b", exclude false:"
    });
}

fn output_name(output: Output) -> &'static [u8] {
    match output {
        Output::Summary => b"summary",
        Output::Threads => b"threads",
        Output::Messages => b"messages",
        Output::Files => b"files",
        Output::Tags => b"tags",
    }
}

/// `search QUERY` after what is printed, and how.
fn add_search(answers: &mut Lines, ask: &SearchAsk) {
    answers.line(b"search");
    answers.push_after_blank(output_name(ask.output));
    push_if(answers, ask.json, b", json");
    push_if(answers, ask.oldest, b", oldest");
    answers.push(b":");
    answers.push_after_blank(ask.query.as_bytes());
}

/// `dump QUERY` after its form.
fn add_dump(answers: &mut Lines, ask: &DumpAsk) {
    answers.line(match ask.form {
        DumpForm::BatchTag => b"dump batch-tag:".as_slice(),
        DumpForm::Sup => b"dump sup:",
    });
    answers.push_after_blank(ask.query.as_bytes());
}

/// `show QUERY` after its form.
fn add_show(answers: &mut Lines, ask: &ShowAsk) {
    answers.line(if ask.raw {
        b"show raw".as_slice()
    } else {
        b"show text"
    });
    push_excludes(answers, ask.exclude);
    answers.push_after_blank(ask.query.as_bytes());
}

/// `tag CHANGES: QUERY`, after whether it clears and whether it reads lines.
fn add_tag(answers: &mut Lines, ask: &TagAsk) {
    answers.line(b"tag");
    push_if(answers, ask.clear, b" clear");
    push_if(answers, ask.batch, b" batch");
    'ops: for op in ask.ops.as_slice() {
        push_op(answers, op);
    }
    answers.push(b":");
    answers.push_after_blank(ask.query.as_bytes());
}

fn push_op(answers: &mut Lines, op: &TagOp) {
    answers.push(if op.add { b" +".as_slice() } else { b" -" });
    answers.push(op.tag.text().as_bytes());
}

/// `restore`, after it the form that it reads and whether tags stay.
fn add_restore(answers: &mut Lines, ask: &RestoreAsk) {
    answers.line(match ask.form {
        ReadForm::Auto => b"restore form=auto".as_slice(),
        ReadForm::BatchTag => b"restore form=batch-tag",
        ReadForm::Sup => b"restore form=sup",
    });
    answers.push(if ask.accumulate {
        b" accumulate=yes".as_slice()
    } else {
        b" accumulate=no"
    });
}

/// The text of the refusal, which has to be what is printed where there is no memory for a text.
fn add_refusal(
    answers: &mut Lines,
    alloc: Global,
    kind: UsageKind,
    word: &Text,
    text: Result<Many<u8>, NoMemory>,
) {
    match text {
        Ok(text) => {
            push_unless_printed(answers, alloc, kind, word, text.as_slice());
            answers.line(cut(text.as_slice(), b'\n').0);
        }
        Err(NoMemory) => answers.line(b"no memory"),
    }
}

fn push_unless_printed(
    answers: &mut Lines,
    alloc: Global,
    kind: UsageKind,
    word: &Text,
    text: &[u8],
) {
    let mut sink = MemSink::new(alloc, Many::new(alloc));
    let _ = print_usage(&mut sink, kind, word.as_str());
    if sink.bytes() != text {
        answers.line(b"it is printed otherwise");
    }
}
