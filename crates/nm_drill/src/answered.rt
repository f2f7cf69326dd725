//! Groups of mails: which mail answers which, for `mail` and its `lines`.

ghost use Rattle.std.specs.Prelude.{◌≡◌, ◌≤◌};
ghost use Rattle.nm_drill.specs.Drill.{answered, first_of, group_of};

/// The number of the group that the mail is of.
pub(crate) fn group_of(number: u32) -> u32
    requires { 1 ≤ number }
    ensures { result ≡ group_of number }
{
    1 + (number - 1) / 5
}

/// The mail that the mail answers.
pub(crate) fn answered(number: u32) -> Option<u32>
    requires { 1 ≤ number }
    ensures { result ≡ answered number }
{
    let first = first_of(number);
    if number == first { None } else { Some(first) }
}

/// The first mail of its group.
fn first_of(number: u32) -> u32
    requires { 1 ≤ number }
    ensures { result ≡ first_of number }
{
    number - (number - 1) % 5
}
