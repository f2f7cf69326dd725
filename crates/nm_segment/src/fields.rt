//! The fields by their numbers: `part` and `merged_index` go over a word's runs by them.

ghost use Rattle.std.specs.Prelude.{◌≡◌, ◌<◌};
ghost use Rattle.nm_base.specs.FieldNumber.{field_number};

use nm_base::Field;

/// The field with a number.
pub fn field_at(number: usize) -> Field
    requires { number < 5 }
    ensures { field_number result ≡ number }
{
    match number {
        0 => Field::From,
        1 => Field::To,
        2 => Field::Subject,
        3 => Field::Body,
        _ => Field::Attachment,
    }
}
