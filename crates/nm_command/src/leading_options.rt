//! The program's leading options, which `nm_top` reads first: folders, workers and the moment, before the command.

ghost use Rattle.std.specs.Prelude.{◌≡◌, ◌≢◌, ◌⊎◌, ◌≤◌, ◌≤ℤ◌, ℕ, List, true, false, IfOk, IfSome, MatchResult, Ok, Err, length, map, pos};
ghost use Rattle.std.specs.List.{list_all, take_while};
ghost use Rattle.std.specs.Option.{option_and_then, option_map};
ghost use Rattle.clap.specs.Words.{app_of, first_value, found_of};
ghost use Rattle.nm_base.specs.Limits.{max_date};
ghost use Rattle.nm_command.specs.LeadingOptions.{cut_option, leading_of, may_be};
ghost use Rattle.nm_command.specs.LeadingParser.{are_named, has_value, parser};
ghost use Rattle.nm_command.specs.Numbers.{moment_in, workers_in};
ghost use Rattle.nm_command.specs.Options.{begins_with_dashes};
ghost use Rattle.nm_command.specs.Settings.{or_default};
ghost use Rattle.nm_command.specs.Table.{meaning_of};

use crate::number::{moment, workers};
use crate::options::begins_with_dashes;
use crate::table::{LeadingForm, leading_form};
use clap::error::ErrorKind;
use clap::{Arg, ArgMatches, Command};
use nm_base::{NoMemory, Text};
use nm_text::cut_at;
use std::alloc::Global;
use thiserror::Error;

/// What the program's leading options say.
#[derive(Drop)]
pub struct Leading {
    /// The folder of mail.
    pub mail: Text,
    /// The folder of the index.
    pub index: Text,
    /// How many workers there are: 1 to 16.
    pub workers: u32,
    /// The second that counts as the present one; without it the clock's does.
    pub moment: Option<i64>,
    /// How many words the options are.
    pub rest: usize,
}

/// Why words have no leading options.
#[derive(Clone, Copy, Debug, Error)]
pub enum HeadError {
    /// One of them is out of form, or a name occurs twice.
    #[error("usage")]
    Usage,
    #[error("no memory")]
    NoMemory,
}

impl From<NoMemory> for HeadError {
    ghost use Rattle.nm_command.specs.declared.leading_options.HeadError.TheVariants.{NoMemory as OutOfMemory};
    ghost use Rattle.std.specs.Prelude.{◌≡◌};

    ghost from_gives = { λ _ e. e ≡ OutOfMemory };

    fn from(_: NoMemory) -> HeadError {
        HeadError::NoMemory
    }
}

/// An option in a word.
#[derive(Clone, Copy)]
struct LeadingWord<'a> {
    name: &'a str,
    value: &'a str,
}

const DEFAULT_WORKERS: u32 = 4;

/// Reads the options before the command: the words before the first that does not begin with dashes.
pub fn head(alloc: Global, words: &[Text]) -> Result<Leading, HeadError>
    ensures exact { MatchResult result (λ leading. leading_of words.now ≡ Ok leading)
        (λ error. (error ≡ HeadError.NoMemory) ⊎ (leading_of words.now ≡ Err error)) }

    // The command begins within the words.
    ensures rest { IfOk result (λ leading. leading.rest ≤ length words.now) }
    ensures workers { IfOk result (λ leading. (1 ≤ leading.workers) × (leading.workers ≤ 16)) }
    ensures moment { IfOk result (λ leading. IfSome leading.moment (λ second. (pos 0 ≤ℤ second) × (second ≤ℤ pos max_date))) }
{
    let options = leading_words(words);
    if !have_values(options) {
        return Err(HeadError::Usage);
    }
    let texts = texts_of(alloc, options)?;
    let matches = match parsed(alloc, texts.as_slice()) {
        Ok(matches) => matches,
        Err(error) => return Err(error),
    };
    Ok(Leading {
        mail: folder(alloc, matches.get_str("--mail"), "mail")?,
        index: folder(alloc, matches.get_str("--index"), "index")?,
        workers: workers_given(matches.get_str("--workers")),
        moment: moment_given(matches.get_str("--moment")),
        rest: options.len(),
    })
}

fn leading_words(words: &[Text]) -> &[Text]
    ensures words { result.now ≡ take_while begins_with_dashes words.now }
    ensures within { length result.now ≤ length words.now }
{
    'words: for (at, word) in words.iter().enumerate() {
        if !begins_with_dashes(word.as_str()) {
            return &words[..at];
        }
    }
    words
}

/// `clap` would take an empty value, and one in the next word: so the values are tested first.
fn have_values(words: &[Text]) -> bool
    ensures { result ≡ list_all has_value (map cut_option words.now) }
{
    let mut rest = words;
    'words: while !rest.is_empty() {
        if !has_value(rest[0].as_str()) {
            return false;
        }
        rest = &rest[1..];
    }
    true
}

fn has_value(word: &str) -> bool
    ensures { result ≡ has_value (cut_option word.now) }
{
    let option = cut_option(word);
    match leading_form(option.name) {
        Some(form) => may_be(form, option.value),
        None => !option.value.is_empty(),
    }
}

fn may_be(form: LeadingForm, value: &str) -> bool
    ensures { result ≡ may_be form value.now }
{
    match form {
        LeadingForm::Folder => !value.is_empty(),
        LeadingForm::Workers => workers(value).is_some(),
        LeadingForm::Moment => moment(value).is_some(),
    }
}

/// The first `=` is between name and value; without one there is no value.
fn cut_option(word: &str) -> LeadingWord<'_>
    ensures { (result.name.now, result.value.now) ≡ cut_option word.now }
{
    match cut_at(word, b'=') {
        Some((name, value)) => LeadingWord { name, value },
        None => LeadingWord {
            name: word,
            value: "",
        },
    }
}

fn texts_of(alloc: Global, words: &[Text]) -> Result<Vec<&str>, NoMemory>
    ensures { IfOk result (λ texts. map (λ text. text.now) texts.items ≡ words.now) }
{
    let mut texts = Vec::with_capacity(alloc, words.len())?;
    'words: for word in words {
        texts.push(word.as_str())?;
    }
    Ok(texts)
}

/// What the options say, by `clap`: it refuses an unknown name, and one that occurs twice.
fn parsed<'a>(alloc: Global, words: &'a [&'a str]) -> Result<ArgMatches<'a>, HeadError>
    requires dashes { list_all begins_with_dashes (map (λ word. word.now) words.now) ≡ true }
    requires values { list_all has_value (map cut_option (map (λ word. word.now) words.now)) ≡ true }
    ensures { MatchResult result
        (λ matches. (are_named (map cut_option (map (λ word. word.now) words.now)) ≡ true)
        × ((name : List ℕ) → first_value (found_of matches) name ≡ meaning_of name (map cut_option (map (λ word. word.now) words.now))))
        (λ error. (error ≡ HeadError.NoMemory)
        ⊎ ((error ≡ HeadError.Usage) × (are_named (map cut_option (map (λ word. word.now) words.now)) ≡ false))) }
{
    match parser(alloc)?.try_get_matches_from(words) {
        Ok(matches) => Ok(matches),
        Err(error) => Err(refusal(error.kind())),
    }
}

fn refusal(kind: ErrorKind) -> HeadError
    ensures memory { kind ≡ ErrorKind.OutOfMemory → result ≡ HeadError.NoMemory }
    ensures usage { kind ≢ ErrorKind.OutOfMemory → result ≡ HeadError.Usage }
{
    match kind {
        ErrorKind::OutOfMemory => HeadError::NoMemory,
        _ => HeadError::Usage,
    }
}

fn parser<'a>(alloc: Global) -> Result<Command<'a>, NoMemory>
    ensures { IfOk result (λ command. app_of command ≡ parser) }
{
    let bare = Command::new(alloc, "notmuch")
        .no_binary_name(true)
        .disable_help_flag(true);
    let command = bare
        .arg(Arg::new(alloc, "--mail").long("mail"))?
        .arg(Arg::new(alloc, "--index").long("index"))?
        .arg(Arg::new(alloc, "--workers").long("workers"))?
        .arg(Arg::new(alloc, "--moment").long("moment"))?;
    Ok(command)
}

fn folder(alloc: Global, given: Option<&str>, default: &str) -> Result<Text, NoMemory>
    ensures { IfOk result (λ folder. folder ≡ or_default (option_map (λ text. text.now) given.entry) default.now) }
{
    match given {
        Some(folder) => Text::of(alloc, folder),
        None => Text::of(alloc, default),
    }
}

fn workers_given(given: Option<&str>) -> u32
    ensures value { result ≡ or_default (option_and_then workers_in (option_map (λ text. text.now) given.entry)) 4 }
    ensures within { (1 ≤ result) × (result ≤ 16) }
{
    match given {
        Some(value) => workers(value).unwrap_or(DEFAULT_WORKERS),
        None => DEFAULT_WORKERS,
    }
}

fn moment_given(given: Option<&str>) -> Option<i64>
    ensures value { result ≡ option_and_then moment_in (option_map (λ text. text.now) given.entry) }
    ensures within { IfSome result (λ second. (pos 0 ≤ℤ second) × (second ≤ℤ pos max_date)) }
{
    match given {
        Some(value) => moment(value),
        None => None,
    }
}
