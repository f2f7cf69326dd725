//! The range of dates: `nm_extract` makes none outside of it, `nm_record` and `nm_state` take none.

ghost use Rattle.std.specs.Prelude.{◌≡◌, ◌↔◌, IsTrue};
ghost use Rattle.nm_base.specs.Limits.{IsDate, is_date};

/// Says whether a second since 1970-01-01 00:00:00 UTC is a date that facts may have: from 0001-01-01 00:00:00 to
/// 9987-04-02 17:46:40.
pub fn is_date(second: i64) -> bool
    ensures value { result ≡ is_date second }
    ensures range { IsTrue result ↔ IsDate second }
{
    second >= -62_135_596_800 && second <= 253_000_000_000
}
