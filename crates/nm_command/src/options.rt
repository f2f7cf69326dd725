//! The options of a command, from left to right, and the words after them, for `command`.

ghost use Rattle.std.specs.Prelude.{◌≡◌, MatchResult, None, Some, Ok, Err};
ghost use Rattle.nm_command.specs.Options.{begins_with_dashes, or_bad_value, or_no_option, read_options, setting_of, with_option};
ghost use Rattle.nm_command.specs.Settings.{nothing_set};
ghost use Rattle.nm_command.specs.Table.{flag_setting, meaning_of, options_of, value_setting};

use crate::settings::{Setting, Settings, is_given, nothing_set, with_setting};
use crate::table::{CommandName, Form, flag_setting, option_form, value_setting};
use nm_base::{Text, UsageKind};
use nm_text::cut_at;

/// What the options set, and the words after them.
#[derive(Clone, Copy)]
pub(crate) struct Options<'a> {
    pub settings: Settings,
    pub words: &'a [Text],
}

/// A word that is at fault.
#[derive(Clone, Copy)]
pub(crate) struct Fault<'a> {
    pub word: &'a str,
    pub kind: UsageKind,
}

/// Reads the options at the front of the words: up to `--`, which is dropped, or to the first word without dashes.
pub(crate) fn read_options(command: CommandName, words: &[Text]) -> Result<Options<'_>, Fault<'_>>
    ensures { MatchResult result
        (λ options. read_options command nothing_set words.now ≡ Ok (options.settings, options.words.now))
        (λ fault. read_options command nothing_set words.now ≡ Err (fault.word.now, fault.kind)) }
{
    let mut settings = nothing_set();
    let mut rest = words;
    'options: while !rest.is_empty() {
        let word = rest[0].as_str();
        if word == "--" {
            return Ok(Options {
                settings,
                words: &rest[1..],
            });
        }
        if !begins_with_dashes(word) {
            break;
        }
        match with_option(command, settings, word) {
            Ok(more) => settings = more,
            Err(kind) => return Err(Fault { word, kind }),
        }
        rest = &rest[1..];
    }
    Ok(Options {
        settings,
        words: rest,
    })
}

/// Whether a word is an option or ends them.
pub(crate) fn begins_with_dashes(word: &str) -> bool
    ensures { result ≡ begins_with_dashes word.now }
{
    word.as_bytes().starts_with(b"--")
}

/// The settings with that of one more option, which may occur once.
fn with_option(command: CommandName, settings: Settings, word: &str) -> Result<Settings, UsageKind>
    ensures { result ≡ with_option command settings word.now }
{
    let setting = match setting(command, word) {
        Ok(setting) => setting,
        Err(kind) => return Err(kind),
    };
    if is_given(settings, setting) {
        return Err(UsageKind::Repeat);
    }
    Ok(with_setting(settings, setting))
}

/// What an option sets: `--name=value` or `--name`.
fn setting(command: CommandName, word: &str) -> Result<Setting, UsageKind>
    ensures { result ≡ setting_of command word.now }
{
    match cut_at(word, b'=') {
        Some((name, value)) => valued(command, name, value),
        None => unvalued(command, word),
    }
}

fn valued(command: CommandName, name: &str, value: &str) -> Result<Setting, UsageKind>
    ensures { result ≡ or_no_option (meaning_of name.now (options_of command)) (λ form. value_setting form value.now) }
{
    match form_of(command, name) {
        Ok(form) => or_bad_value(value_setting(form, value)),
        Err(kind) => Err(kind),
    }
}

fn unvalued(command: CommandName, name: &str) -> Result<Setting, UsageKind>
    ensures { result ≡ or_no_option (meaning_of name.now (options_of command)) flag_setting }
{
    match form_of(command, name) {
        Ok(form) => or_bad_value(flag_setting(form)),
        Err(kind) => Err(kind),
    }
}

fn form_of(command: CommandName, name: &str) -> Result<Form, UsageKind>
    ensures { MatchResult result (λ form. meaning_of name.now (options_of command) ≡ Some form)
        (λ kind. (meaning_of name.now (options_of command) ≡ None) × (kind ≡ UsageKind.Option)) }
{
    option_form(command, name).ok_or(UsageKind::Option)
}

fn or_bad_value(setting: Option<Setting>) -> Result<Setting, UsageKind>
    ensures { result ≡ or_bad_value setting }
{
    setting.ok_or(UsageKind::Value)
}
