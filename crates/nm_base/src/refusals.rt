//! The kinds of refusals: of the words of a command, by `nm_command`, and of a file by `new`, in the report of `nm_model_answer`.

/// What is wrong with the words of a command.
#[derive(Clone, Copy, Debug)]
pub enum UsageKind {
    /// No such command, or none at all.
    Command,
    /// No such option.
    Option,
    /// A value out of its form.
    Value,
    /// An option that came already.
    Repeat,
    /// A word is wanting.
    Missing,
    /// A word too many.
    Extra,
    /// A tag word without a tag.
    Tag,
    /// Words that do not go together.
    Clash,
    /// No such lane, or a command that the lane may not run.
    Lane,
    /// Input for no command, or for one that takes none.
    Input,
    /// Not UTF-8.
    Utf8,
}

/// Why `new` passed over a file.
#[derive(Clone, Copy)]
pub enum Skip {
    NotMail,
    Missing,
    TooLong,
}
