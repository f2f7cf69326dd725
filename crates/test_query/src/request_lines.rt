//! What a command asks for, with all that its options set, in a line, for `command_rows`.

use nm_base::{
    CountAsk, DumpAsk, DumpForm, Output, ReadForm, RestoreAsk, SearchAsk, ShowAsk, TagAsk, Text,
};
use nm_command::Request;
use rows::Lines;

pub fn push_request(lines: &mut Lines, request: &Request) {
    match request {
        Request::New => lines.push(b"new"),
        Request::Search(ask) => push_search(lines, ask),
        Request::Count(ask) => push_count(lines, ask),
        Request::Show(ask) => push_show(lines, ask),
        Request::Tag(ask) => push_tag(lines, ask),
        Request::Dump(ask) => push_dump(lines, ask),
        Request::Restore(ask) => push_restore(lines, *ask),
        Request::Drill(count) => push_number(lines, b"drill ", *count),
        Request::Session => lines.push(b"session"),
    }
}

fn push_number(lines: &mut Lines, what: &[u8], number: u32) {
    lines.push(what);
    lines.push_number(u64::from(number));
}

/// `search FORMAT OUTPUT SORT, offset N, limit N, exclude true: QUERY`
fn push_search(lines: &mut Lines, ask: &SearchAsk) {
    lines.push(choice(ask.json, b"search json ", b"search text "));
    lines.push(output_name(ask.output));
    lines.push(choice(ask.oldest, b" oldest-first", b" newest-first"));
    push_number(lines, b", offset ", ask.offset);
    match ask.limit {
        Some(limit) => push_number(lines, b", limit ", limit),
        None => lines.push(b", no limit"),
    }
    push_query(lines, ask.exclude, &ask.query);
}

fn choice(is_first: bool, first: &'static [u8], second: &'static [u8]) -> &'static [u8] {
    if is_first { first } else { second }
}

fn push_count(lines: &mut Lines, ask: &CountAsk) {
    lines.push(b"count ");
    lines.push(output_name(ask.output));
    lines.push(choice(ask.batch, b", batch", b""));
    push_query(lines, ask.exclude, &ask.query);
}

fn push_show(lines: &mut Lines, ask: &ShowAsk) {
    lines.push(choice(ask.raw, b"show raw", b"show text"));
    push_query(lines, ask.exclude, &ask.query);
}

fn push_query(lines: &mut Lines, exclude: bool, query: &Text) {
    lines.push(choice(exclude, b", exclude true:", b", exclude false:"));
    lines.push_after_blank(query.as_bytes());
}

fn output_name(output: Output) -> &'static [u8] {
    match output {
        Output::Summary => b"summary",
        Output::Threads => b"threads",
        Output::Messages => b"messages",
        Output::Files => b"files",
        Output::Tags => b"tags",
    }
}

/// `tag, remove all, batch +TAG -TAG: QUERY`
fn push_tag(lines: &mut Lines, ask: &TagAsk) {
    lines.push(choice(ask.clear, b"tag, remove all", b"tag"));
    lines.push(choice(ask.batch, b", batch", b""));
    'ops: for op in ask.ops.as_slice() {
        lines.push(choice(op.add, b" +", b" -"));
        lines.push(op.tag.text().as_bytes());
    }
    lines.push(b":");
    lines.push_after_blank(ask.query.as_bytes());
}

/// `dump FORMAT: QUERY`
fn push_dump(lines: &mut Lines, ask: &DumpAsk) {
    lines.push(match ask.form {
        DumpForm::BatchTag => b"dump batch-tag:".as_slice(),
        DumpForm::Sup => b"dump sup:",
    });
    lines.push_after_blank(ask.query.as_bytes());
}

/// `restore FORMAT, accumulate`
fn push_restore(lines: &mut Lines, ask: RestoreAsk) {
    lines.push(match ask.form {
        ReadForm::Auto => b"restore auto".as_slice(),
        ReadForm::BatchTag => b"restore batch-tag",
        ReadForm::Sup => b"restore sup",
    });
    lines.push(choice(ask.accumulate, b", accumulate", b""));
}
