//! Tags that are set on the messages of an index without a commit, for `snapshot`.

ghost use Rattle.std.specs.Prelude.{◌≡◌, IsTrue, OnOk};
ghost use Rattle.std.specs.List.{AllByRecursion};
ghost use Rattle.nm_commit.specs.Files.{has_id};
ghost use Rattle.nm_parts.specs.Parts.{AreParts, base_of};
ghost use Rattle.nm_state.specs.Snapshot.{retagged};

use nm_base::{MessageId, NoMemory, Tags};
use nm_parts::{Parts, tag_message};
use std::alloc::Global;

/// Gives each of these messages, which have files, its tags and no others.
pub fn retag(alloc: Global, parts: &mut Parts, sets: &[(MessageId, Tags)]) -> Result<(), NoMemory>
    requires parts { AreParts parts.old }
    requires live { AllByRecursion (λ set. IsTrue (has_id (base_of parts.old).files set.0)) sets.now }
    ensures parts { OnOk result (AreParts parts.new) }
    ensures base { OnOk result (base_of parts.new ≡ retagged (base_of parts.old) sets.now) }
{
    'sets: for set in sets {
        tag_message(alloc, parts, &set.0, &set.1)?;
    }
    Ok(())
}
