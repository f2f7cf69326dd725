//! What the options of a command set: `options` gathers them, and `command` reads them.

ghost use Rattle.std.specs.Prelude.{◌≡◌, true};
ghost use Rattle.nm_command.specs.Settings.{is_given, nothing_set, or_default, with_setting};

use nm_base::{DumpForm, Output, ReadForm};

/// What one option sets.
#[derive(Clone, Copy)]
pub(crate) enum Setting {
    Json(bool),
    Raw(bool),
    DumpForm(DumpForm),
    ReadForm(ReadForm),
    Output(Output),
    Oldest(bool),
    Offset(u32),
    Limit(u32),
    Exclude(bool),
    Batch,
    Clear,
    Accumulate,
}

/// What the options up to a word have set, as far as they were there.
#[derive(Clone, Copy)]
pub(crate) struct Settings {
    pub json: Option<bool>,
    pub raw: Option<bool>,
    pub dump_form: Option<DumpForm>,
    pub read_form: Option<ReadForm>,
    pub output: Option<Output>,
    pub oldest: Option<bool>,
    pub offset: Option<u32>,
    pub limit: Option<u32>,
    pub exclude: Option<bool>,
    pub batch: bool,
    pub clear: bool,
    pub accumulate: bool,
}

/// Before any option.
pub(crate) fn nothing_set() -> Settings
    ensures { result ≡ nothing_set }
{
    Settings {
        json: None,
        raw: None,
        dump_form: None,
        read_form: None,
        output: None,
        oldest: None,
        offset: None,
        limit: None,
        exclude: None,
        batch: false,
        clear: false,
        accumulate: false,
    }
}

/// Whether an option that sets the same was there, whichever value it had.
pub(crate) fn is_given(settings: Settings, setting: Setting) -> bool
    ensures { result ≡ is_given settings setting }
{
    match setting {
        Setting::Json(_) => settings.json.is_some(),
        Setting::Raw(_) => settings.raw.is_some(),
        Setting::DumpForm(_) => settings.dump_form.is_some(),
        Setting::ReadForm(_) => settings.read_form.is_some(),
        Setting::Output(_) => settings.output.is_some(),
        Setting::Oldest(_) => settings.oldest.is_some(),
        Setting::Offset(_) => settings.offset.is_some(),
        Setting::Limit(_) => settings.limit.is_some(),
        Setting::Exclude(_) => settings.exclude.is_some(),
        Setting::Batch => settings.batch,
        Setting::Clear => settings.clear,
        Setting::Accumulate => settings.accumulate,
    }
}

/// The settings with one more.
pub(crate) fn with_setting(settings: Settings, setting: Setting) -> Settings
    ensures { result ≡ with_setting settings setting }
{
    let mut settings = settings;
    match setting {
        Setting::Json(json) => settings.json = Some(json),
        Setting::Raw(raw) => settings.raw = Some(raw),
        Setting::DumpForm(form) => settings.dump_form = Some(form),
        Setting::ReadForm(form) => settings.read_form = Some(form),
        Setting::Output(output) => settings.output = Some(output),
        Setting::Oldest(oldest) => settings.oldest = Some(oldest),
        Setting::Offset(offset) => settings.offset = Some(offset),
        Setting::Limit(limit) => settings.limit = Some(limit),
        Setting::Exclude(exclude) => settings.exclude = Some(exclude),
        Setting::Batch => settings.batch = true,
        Setting::Clear => settings.clear = true,
        Setting::Accumulate => settings.accumulate = true,
    }
    settings
}

/// Whether messages with an excluded tag are left out.
pub(crate) fn excludes(settings: Settings) -> bool
    ensures { result ≡ or_default settings.exclude true }
{
    settings.exclude.unwrap_or(true)
}
