//! The changes of a `new`, for `nm_writer`: mails are added, and files that are missing are removed.

ghost use Rattle.std.specs.Prelude.{◌≡◌, IfOk, map};
ghost use Rattle.nm_model_plan.specs.Plan.{add_of, drop_of, message_ids};

use nm_base::{Copies, Facts, MailPath, Many, MessageId, NoMemory};
use nm_commit::Change;
use nm_shared::Shared;
use std::alloc::Global;

/// The ids of the mails, in order.
pub fn ids_of(alloc: Global, added: &[(MailPath, Facts)]) -> Result<Many<MessageId>, NoMemory>
    ensures { IfOk result (λ ids. ids ≡ message_ids added.now) }
{
    let mut ids = Many::new(alloc);
    'added: for arrival in added {
        ids.push(arrival.1.id.copy()?)?;
    }
    Ok(ids)
}

/// The changes that add the mails.
pub fn adds(alloc: Global, added: Many<(MailPath, Facts)>) -> Result<Many<Change>, NoMemory>
    ensures { IfOk result (λ changes. changes ≡ map add_of added) }
{
    let mut changes = Many::new(alloc);
    'added: for (path, facts) in added.into_vec() {
        let facts = Shared::new(alloc, facts)?;
        changes.push(Change::Add { path, facts })?;
    }
    Ok(changes)
}

/// The changes that remove the files at these paths.
pub fn drops(alloc: Global, gone: Many<MailPath>) -> Result<Many<Change>, NoMemory>
    ensures { IfOk result (λ changes. changes ≡ map drop_of gone) }
{
    let changes = gone
        .into_vec()
        .into_iter()
        .map(|path| Change::Drop { path })
        .collect(alloc)?;
    Ok(Many::from_vec(changes))
}
