//! The call `command`: words to what they ask for, or to the one refusal. `nm_log` reads the words of a line with it,
//! `nm_top` those of the program.

ghost use Rattle.std.specs.Prelude.{◌≡◌, ◌⊎◌, [], ◌∷◌, ◌++◌, IfOk, MatchResult, Ok, Err, nat_lt, true, string_bytes, if◌then◌else◌};
ghost use Rattle.nm_command.specs.Requests.{after_options, batch_fault, batch_tag, drill_with, query_of, refused, request_of, request_with, single_tag, tag_ask, tag_with, without_words};
ghost use Rattle.nm_command.specs.Options.{read_options};
ghost use Rattle.nm_command.specs.Settings.{nothing_set};
ghost use Rattle.nm_command.specs.TagWords.{changes_of, is_tag_word, op_of};

use crate::number::drill_count;
use crate::options::read_options;
use crate::settings::{Settings, excludes};
use crate::table::{CommandName, command_named};
use crate::tag_words::{changes_of, is_tag_word, op_of, query_words};
use crate::{CommandError, Request};
use nm_base::{
    CountAsk, DumpAsk, DumpForm, Many, NoMemory, Output, ReadForm, RestoreAsk, SearchAsk, ShowAsk,
    TagAsk, TagOp, Text, UsageKind,
};
use std::alloc::Global;

/// Reads the words of a command line: the command, its options from left to right, then the other words. Of several
/// faults the first is reported.
pub fn command(alloc: Global, words: &[Text]) -> Result<Request, CommandError>
    ensures { MatchResult result (λ request. request_of words.now ≡ Ok request)
        (λ error. (error ≡ CommandError.NoMemory) ⊎ (request_of words.now ≡ Err error)) }
{
    match words {
        [] => refuse(alloc, "", UsageKind::Command),
        [word, words @ ..] => match command_named(word.as_str()) {
            Some(command) => named(alloc, command, words),
            None => refuse(alloc, word.as_str(), UsageKind::Command),
        },
    }
}

/// Refuses this word for this reason.
fn refuse(alloc: Global, word: &str, kind: UsageKind) -> Result<Request, CommandError>
    ensures { MatchResult result (λ request. refused word.now kind ≡ Ok request)
        (λ error. (error ≡ CommandError.NoMemory) ⊎ (refused word.now kind ≡ Err error)) }
{
    match Text::of(alloc, word) {
        Ok(word) => Err(CommandError::Usage { word, kind }),
        Err(_) => Err(CommandError::NoMemory),
    }
}

fn named(alloc: Global, command: CommandName, words: &[Text]) -> Result<Request, CommandError>
    ensures { MatchResult result (λ request. after_options command (read_options command nothing_set words.now) ≡ Ok request)
        (λ error. (error ≡ CommandError.NoMemory) ⊎ (after_options command (read_options command nothing_set words.now) ≡ Err error)) }
{
    match read_options(command, words) {
        Ok(options) => request(alloc, command, options.settings, options.words),
        Err(fault) => refuse(alloc, fault.word, fault.kind),
    }
}

fn request(
    alloc: Global,
    command: CommandName,
    settings: Settings,
    words: &[Text],
) -> Result<Request, CommandError>
    ensures { MatchResult result (λ request. request_with command settings words.now ≡ Ok request)
        (λ error. (error ≡ CommandError.NoMemory) ⊎ (request_with command settings words.now ≡ Err error)) }
{
    match command {
        CommandName::New => without_words(alloc, UsageKind::Extra, Request::New, words),
        CommandName::Search => search(alloc, settings, words),
        CommandName::Count => count(alloc, settings, words),
        CommandName::Show => show(alloc, settings, words),
        CommandName::Tag => tag(alloc, settings, words),
        CommandName::Dump => dump(alloc, settings, words),
        CommandName::Restore => restore(alloc, settings, words),
        CommandName::Drill => drill(alloc, words),
        CommandName::Session => without_words(alloc, UsageKind::Extra, Request::Session, words),
    }
}

fn without_words(
    alloc: Global,
    kind: UsageKind,
    request: Request,
    words: &[Text],
) -> Result<Request, CommandError>
    ensures { MatchResult result (λ read. without_words kind request words.now ≡ Ok read)
        (λ error. (error ≡ CommandError.NoMemory) ⊎ (without_words kind request words.now ≡ Err error)) }
{
    match words {
        [] => Ok(request),
        [word, ..] => refuse(alloc, word.as_str(), kind),
    }
}

fn search(alloc: Global, settings: Settings, words: &[Text]) -> Result<Request, CommandError>
    ensures { MatchResult result (λ request. request_with CommandName.Search settings words.now ≡ Ok request)
        (λ error. (error ≡ CommandError.NoMemory) ⊎ (request_with CommandName.Search settings words.now ≡ Err error)) }
{
    if words.is_empty() {
        return refuse_missing(alloc);
    }
    let Ok(query) = query(alloc, words) else {
        return Err(CommandError::NoMemory);
    };
    Ok(Request::Search(SearchAsk {
        json: settings.json.unwrap_or(false),
        output: settings.output.unwrap_or(Output::Summary),
        oldest: settings.oldest.unwrap_or(false),
        offset: settings.offset.unwrap_or(0),
        limit: settings.limit,
        exclude: excludes(settings),
        query,
    }))
}

/// A query is wanting, a tag word, or the number of a drill.
fn refuse_missing(alloc: Global) -> Result<Request, CommandError>
    ensures { MatchResult result (λ request. refused [] UsageKind.Missing ≡ Ok request)
        (λ error. (error ≡ CommandError.NoMemory) ⊎ (refused [] UsageKind.Missing ≡ Err error)) }
{
    refuse(alloc, "", UsageKind::Missing)
}

fn count(alloc: Global, settings: Settings, words: &[Text]) -> Result<Request, CommandError>
    ensures { MatchResult result (λ request. request_with CommandName.Count settings words.now ≡ Ok request)
        (λ error. (error ≡ CommandError.NoMemory) ⊎ (request_with CommandName.Count settings words.now ≡ Err error)) }
{
    let Ok(query) = query(alloc, words) else {
        return Err(CommandError::NoMemory);
    };
    let request = Request::Count(CountAsk {
        output: settings.output.unwrap_or(Output::Messages),
        exclude: excludes(settings),
        batch: settings.batch,
        query,
    });
    if settings.batch {
        return without_words(alloc, UsageKind::Clash, request, words);
    }
    Ok(request)
}

fn show(alloc: Global, settings: Settings, words: &[Text]) -> Result<Request, CommandError>
    ensures { MatchResult result (λ request. request_with CommandName.Show settings words.now ≡ Ok request)
        (λ error. (error ≡ CommandError.NoMemory) ⊎ (request_with CommandName.Show settings words.now ≡ Err error)) }
{
    if words.is_empty() {
        return refuse_missing(alloc);
    }
    let Ok(query) = query(alloc, words) else {
        return Err(CommandError::NoMemory);
    };
    Ok(Request::Show(ShowAsk {
        raw: settings.raw.unwrap_or(false),
        exclude: excludes(settings),
        query,
    }))
}

fn dump(alloc: Global, settings: Settings, words: &[Text]) -> Result<Request, CommandError>
    ensures { MatchResult result (λ request. request_with CommandName.Dump settings words.now ≡ Ok request)
        (λ error. (error ≡ CommandError.NoMemory) ⊎ (request_with CommandName.Dump settings words.now ≡ Err error)) }
{
    let Ok(query) = query(alloc, words) else {
        return Err(CommandError::NoMemory);
    };
    Ok(Request::Dump(DumpAsk {
        form: settings.dump_form.unwrap_or(DumpForm::BatchTag),
        query,
    }))
}

fn restore(alloc: Global, settings: Settings, words: &[Text]) -> Result<Request, CommandError>
    ensures { MatchResult result (λ request. request_with CommandName.Restore settings words.now ≡ Ok request)
        (λ error. (error ≡ CommandError.NoMemory) ⊎ (request_with CommandName.Restore settings words.now ≡ Err error)) }
{
    let request = Request::Restore(RestoreAsk {
        form: settings.read_form.unwrap_or(ReadForm::Auto),
        accumulate: settings.accumulate,
    });
    without_words(alloc, UsageKind::Extra, request, words)
}

/// A drill is asked how many mails it makes, and nothing else.
fn drill(alloc: Global, words: &[Text]) -> Result<Request, CommandError>
    ensures { MatchResult result (λ request. drill_with words.now ≡ Ok request)
        (λ error. (error ≡ CommandError.NoMemory) ⊎ (drill_with words.now ≡ Err error)) }
{
    match words {
        [] => refuse_missing(alloc),
        [digits, more @ ..] => match drill_count(digits.as_str()) {
            Some(count) => without_words(alloc, UsageKind::Extra, Request::Drill(count), more),
            None => refuse(alloc, digits.as_str(), UsageKind::Value),
        },
    }
}

fn tag(alloc: Global, settings: Settings, words: &[Text]) -> Result<Request, CommandError>
    ensures { MatchResult result (λ request. request_with CommandName.Tag settings words.now ≡ Ok request)
        (λ error. (error ≡ CommandError.NoMemory) ⊎ (request_with CommandName.Tag settings words.now ≡ Err error)) }
{
    if settings.batch {
        return batch_tag(alloc, settings, words);
    }
    single_tag(alloc, settings, words)
}

fn single_tag(alloc: Global, settings: Settings, words: &[Text]) -> Result<Request, CommandError>
    ensures { MatchResult result (λ request. single_tag settings (changes_of words.now) ≡ Ok request)
        (λ error. (error ≡ CommandError.NoMemory) ⊎ (single_tag settings (changes_of words.now) ≡ Err error)) }
{
    match changes_of(alloc, words) {
        Ok(Ok((ops, words))) => tag_with(alloc, settings, ops, words),
        Ok(Err(word)) => refuse(alloc, word, UsageKind::Tag),
        Err(_) => Err(CommandError::NoMemory),
    }
}

fn tag_with(
    alloc: Global,
    settings: Settings,
    ops: Many<TagOp>,
    words: &[Text],
) -> Result<Request, CommandError>
    ensures { MatchResult result (λ request. tag_with settings ops words.now ≡ Ok request)
        (λ error. (error ≡ CommandError.NoMemory) ⊎ (tag_with settings ops words.now ≡ Err error)) }
{
    if ops.is_empty() && !settings.clear {
        return refuse_missing(alloc);
    }
    if words.is_empty() {
        return refuse_missing(alloc);
    }
    let Ok(query) = query(alloc, words) else {
        return Err(CommandError::NoMemory);
    };
    Ok(Request::Tag(TagAsk {
        clear: settings.clear,
        batch: settings.batch,
        ops,
        query,
    }))
}

/// The changes and the queries come from the input, so the first word is at fault.
fn batch_tag(alloc: Global, settings: Settings, words: &[Text]) -> Result<Request, CommandError>
    ensures { MatchResult result (λ request. batch_tag settings words.now ≡ Ok request)
        (λ error. (error ≡ CommandError.NoMemory) ⊎ (batch_tag settings words.now ≡ Err error)) }
{
    match words {
        [word, ..] if is_tag_word(word.as_str()) => batch_fault(alloc, word.as_str()),
        _ => batch_words(alloc, settings, query_words(words)),
    }
}

fn batch_fault(alloc: Global, word: &str) -> Result<Request, CommandError>
    requires { is_tag_word word.now ≡ true }
    ensures { MatchResult result (λ request. refused word.now (batch_fault (op_of word.now)) ≡ Ok request)
        (λ error. (error ≡ CommandError.NoMemory) ⊎ (refused word.now (batch_fault (op_of word.now)) ≡ Err error)) }
{
    match op_of(alloc, word) {
        Ok(Some(_)) => refuse(alloc, word, UsageKind::Clash),
        Ok(None) => refuse(alloc, word, UsageKind::Tag),
        Err(_) => Err(CommandError::NoMemory),
    }
}

fn batch_words(alloc: Global, settings: Settings, words: &[Text]) -> Result<Request, CommandError>
    ensures { MatchResult result (λ request. without_words UsageKind.Clash (Request.Tag (tag_ask settings [] [])) words.now ≡ Ok request)
        (λ error. (error ≡ CommandError.NoMemory) ⊎ (without_words UsageKind.Clash (Request.Tag (tag_ask settings [] [])) words.now ≡ Err error)) }
{
    let Ok(query) = Text::of(alloc, "") else {
        return Err(CommandError::NoMemory);
    };
    let request = Request::Tag(TagAsk {
        clear: settings.clear,
        batch: settings.batch,
        ops: Many::new(alloc),
        query,
    });
    without_words(alloc, UsageKind::Clash, request, words)
}

/// The words of a query, with a space between each two.
fn query(alloc: Global, words: &[Text]) -> Result<Text, NoMemory>
    ensures { IfOk result (λ query. query ≡ query_of words.now) }
{
    let mut query = String::new(alloc);
    'words: for (at, word) in words.iter().enumerate() {
        add_word(&mut query, at, word.as_str())?;
    }
    Text::from_string(query)
}

/// Adds the word at this place; a space parts it from the one before.
fn add_word(query: &mut String, at: usize, word: &str) -> Result<(), NoMemory>
    ensures { IfOk result (λ _. string_bytes query.new ≡ (if nat_lt 0 at then string_bytes query.old ++ 32 ∷ [] else string_bytes query.old) ++ word.now) }
{
    if at > 0 {
        query.push(' ')?;
    }
    query.push_str(word)?;
    Ok(())
}
