//! The ids in a field's text; `nm_extract` reads Message-ID, References and In-Reply-To with it.

ghost use Rattle.std.specs.Prelude.{◌≡◌, [], ◌∷◌, ◌++◌, IfOk, OnOk};
ghost use Rattle.nm_header.specs.Ids.{ids_in, ids_of};

use nm_base::{Many, MessageId, NoMemory};
use nm_text::{cut_at, without_white_space};
use std::alloc::Global;

/// The ids in a field's text, in their order: what is between `<` and the next `>`, white space taken out, where it is
/// a message id (RFC 5322, section 3.6.4).
pub fn ids(alloc: Global, text: &str) -> Result<Many<MessageId>, NoMemory>
    ensures { IfOk result (λ found. found ≡ ids_of text.now) }
{
    let mut found = Many::new(alloc);
    let mut left = text;
    'id_texts: while let Some((id_text, more)) = cut_at(left, b'>') {
        add_id(alloc, id_text, &mut found)?;
        left = more;
    }
    Ok(found)
}

fn add_id(alloc: Global, id_text: &str, found: &mut Many<MessageId>) -> Result<(), NoMemory>
    ensures { OnOk result (found.new ≡ found.old ++ ids_in (id_text.now ∷ [])) }
{
    match cut_at(id_text, b'<') {
        None => Ok(()),
        Some((_, inner)) => {
            let text = without_white_space(alloc, inner)?;
            match MessageId::new(text) {
                Ok(id) => found.push(id),
                Err(_) => Ok(()),
            }
        }
    }
}
