//! Cutting a text at the last place of an ASCII character: `names` and `flagged_path` cut names and paths so.

ghost use Rattle.std.specs.Prelude.{◌≡◌, ◌<◌, None, Some, MatchOption};
ghost use Rattle.nm_name.specs.Cuts.{IsCutLast, cut_last};

/// What comes before the last such ASCII character and what comes after it.
pub(crate) fn cut_at_last(text: &str, wanted: u8) -> Option<(&str, &str)>
    requires { wanted < 128 }
    ensures { MatchOption result (cut_last wanted text.now ≡ None) (λ cut. (cut_last wanted text.now ≡ Some (cut.0.now, cut.1.now)) × IsCutLast wanted text.now (cut.0.now, cut.1.now)) }
{
    text.rsplit_once(char::from(wanted))
}
