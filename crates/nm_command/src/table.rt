//! The commands, the options of each, and the values of those: the tables that drive `command` and `options`.

ghost use Rattle.std.specs.Prelude.{◌≡◌, map};
ghost use Rattle.nm_command.specs.Table.{commands, flag_setting, leading_options, meaning_of, number_setting, options_of, value_setting, values_of};

use crate::number::number;
use crate::settings::Setting;
use nm_base::{DumpForm, Output, ReadForm};

/// The commands that there are.
#[derive(Clone, Copy)]
pub enum CommandName {
    New,
    Search,
    Count,
    Show,
    Tag,
    Dump,
    Restore,
    Drill,
    Session,
}

/// What the value of an option may be.
#[derive(Clone, Copy)]
pub(crate) enum Form {
    /// It has none.
    Flag(Setting),
    /// One of these words.
    OneOf(Values),
    Number(Numbered),
}

/// The options whose value is one of a few words.
#[derive(Clone, Copy)]
pub(crate) enum Values {
    SearchFormat,
    ShowFormat,
    DumpFormat,
    RestoreFormat,
    SearchOutput,
    CountOutput,
    Sort,
    Exclude,
}

/// The options whose value is a number.
#[derive(Clone, Copy)]
pub(crate) enum Numbered {
    Offset,
    Limit,
}

/// What the value of an option before the command may be.
#[derive(Clone, Copy)]
pub(crate) enum LeadingForm {
    /// A path, of one byte at least.
    Folder,
    Workers,
    Moment,
}

/// A word, and what it represents.
type Row<T> = (&'static str, T);

const LEADING_OPTIONS: &[Row<LeadingForm>] = &[
    ("--mail", LeadingForm::Folder),
    ("--index", LeadingForm::Folder),
    ("--workers", LeadingForm::Workers),
    ("--moment", LeadingForm::Moment),
];

const COMMANDS: &[Row<CommandName>] = &[
    ("new", CommandName::New),
    ("search", CommandName::Search),
    ("count", CommandName::Count),
    ("show", CommandName::Show),
    ("tag", CommandName::Tag),
    ("dump", CommandName::Dump),
    ("restore", CommandName::Restore),
    ("drill", CommandName::Drill),
    ("session", CommandName::Session),
];

const SEARCH_OPTIONS: &[Row<Form>] = &[
    ("--format", Form::OneOf(Values::SearchFormat)),
    ("--output", Form::OneOf(Values::SearchOutput)),
    ("--sort", Form::OneOf(Values::Sort)),
    ("--offset", Form::Number(Numbered::Offset)),
    ("--limit", Form::Number(Numbered::Limit)),
    ("--exclude", Form::OneOf(Values::Exclude)),
];

const COUNT_OPTIONS: &[Row<Form>] = &[
    ("--output", Form::OneOf(Values::CountOutput)),
    ("--exclude", Form::OneOf(Values::Exclude)),
    ("--batch", Form::Flag(Setting::Batch)),
];

const SHOW_OPTIONS: &[Row<Form>] = &[
    ("--format", Form::OneOf(Values::ShowFormat)),
    ("--exclude", Form::OneOf(Values::Exclude)),
];

const TAG_OPTIONS: &[Row<Form>] = &[
    ("--remove-all", Form::Flag(Setting::Clear)),
    ("--batch", Form::Flag(Setting::Batch)),
];

const DUMP_OPTIONS: &[Row<Form>] = &[("--format", Form::OneOf(Values::DumpFormat))];

const RESTORE_OPTIONS: &[Row<Form>] = &[
    ("--accumulate", Form::Flag(Setting::Accumulate)),
    ("--format", Form::OneOf(Values::RestoreFormat)),
];

const SEARCH_FORMATS: &[Row<Setting>] = &[
    ("text", Setting::Json(false)),
    ("json", Setting::Json(true)),
];

const SHOW_FORMATS: &[Row<Setting>] = &[("text", Setting::Raw(false)), ("raw", Setting::Raw(true))];

const DUMP_FORMATS: &[Row<Setting>] = &[
    ("batch-tag", Setting::DumpForm(DumpForm::BatchTag)),
    ("sup", Setting::DumpForm(DumpForm::Sup)),
];

const RESTORE_FORMATS: &[Row<Setting>] = &[
    ("auto", Setting::ReadForm(ReadForm::Auto)),
    ("batch-tag", Setting::ReadForm(ReadForm::BatchTag)),
    ("sup", Setting::ReadForm(ReadForm::Sup)),
];

const SEARCH_OUTPUTS: &[Row<Setting>] = &[
    ("summary", Setting::Output(Output::Summary)),
    ("threads", Setting::Output(Output::Threads)),
    ("messages", Setting::Output(Output::Messages)),
    ("files", Setting::Output(Output::Files)),
    ("tags", Setting::Output(Output::Tags)),
];

const COUNT_OUTPUTS: &[Row<Setting>] = &[
    ("messages", Setting::Output(Output::Messages)),
    ("threads", Setting::Output(Output::Threads)),
    ("files", Setting::Output(Output::Files)),
];

const SORTS: &[Row<Setting>] = &[
    ("newest-first", Setting::Oldest(false)),
    ("oldest-first", Setting::Oldest(true)),
];

const EXCLUSIONS: &[Row<Setting>] = &[
    ("true", Setting::Exclude(true)),
    ("false", Setting::Exclude(false)),
];

/// What the value of an option before the command may be.
pub(crate) fn leading_form(option: &str) -> Option<LeadingForm>
    ensures { result ≡ meaning_of option.now leading_options }
{
    meaning_of(leading_options(), option)
}

/// The command that a word names, if it names one.
pub fn command_named(word: &str) -> Option<CommandName>
    ensures { result ≡ meaning_of word.now commands }
{
    meaning_of(commands(), word)
}

/// What the value of an option of the command may be.
pub(crate) fn option_form(command: CommandName, option: &str) -> Option<Form>
    ensures { result ≡ meaning_of option.now (options_of command) }
{
    meaning_of(options(command), option)
}

/// What an option with a value sets.
pub(crate) fn value_setting(form: Form, value: &str) -> Option<Setting>
    ensures { result ≡ value_setting form value.now }
{
    match form {
        Form::Flag(_) => None,
        Form::OneOf(which) => meaning_of(values_of(which), value),
        Form::Number(which) => match number(value) {
            Some(number) => Some(number_setting(which, number)),
            None => None,
        },
    }
}

/// What an option without a value sets.
pub(crate) fn flag_setting(form: Form) -> Option<Setting>
    ensures { result ≡ flag_setting form }
{
    match form {
        Form::Flag(setting) => Some(setting),
        Form::OneOf(_) | Form::Number(_) => None,
    }
}

fn number_setting(which: Numbered, number: u32) -> Setting
    ensures { result ≡ number_setting which number }
{
    match which {
        Numbered::Offset => Setting::Offset(number),
        Numbered::Limit => Setting::Limit(number),
    }
}

/// What the word represents in the first row that has it.
fn meaning_of<T: Copy>(rows: &[Row<T>], word: &str) -> Option<T>
    ensures { result ≡ meaning_of word.now (map (λ row. (row.0.now, row.1)) rows.now) }
{
    'rows: for (name, stands_for) in rows {
        if *name == word {
            return Some(*stands_for);
        }
    }
    None
}

fn leading_options() -> &'static [Row<LeadingForm>]
    ensures { map (λ row. (row.0.now, row.1)) result.now ≡ leading_options }
{
    LEADING_OPTIONS
}

fn commands() -> &'static [Row<CommandName>]
    ensures { map (λ row. (row.0.now, row.1)) result.now ≡ commands }
{
    COMMANDS
}

fn options(command: CommandName) -> &'static [Row<Form>]
    ensures { map (λ row. (row.0.now, row.1)) result.now ≡ options_of command }
{
    match command {
        CommandName::New | CommandName::Drill | CommandName::Session => &[],
        CommandName::Search => SEARCH_OPTIONS,
        CommandName::Count => COUNT_OPTIONS,
        CommandName::Show => SHOW_OPTIONS,
        CommandName::Tag => TAG_OPTIONS,
        CommandName::Dump => DUMP_OPTIONS,
        CommandName::Restore => RESTORE_OPTIONS,
    }
}

fn values_of(which: Values) -> &'static [Row<Setting>]
    ensures { map (λ row. (row.0.now, row.1)) result.now ≡ values_of which }
{
    match which {
        Values::SearchFormat => SEARCH_FORMATS,
        Values::ShowFormat => SHOW_FORMATS,
        Values::DumpFormat => DUMP_FORMATS,
        Values::RestoreFormat => RESTORE_FORMATS,
        Values::SearchOutput => SEARCH_OUTPUTS,
        Values::CountOutput => COUNT_OUTPUTS,
        Values::Sort => SORTS,
        Values::Exclude => EXCLUSIONS,
    }
}
