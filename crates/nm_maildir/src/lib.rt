//! Input and output: a folder of mail in Maildir form, listed, read and renamed in. What a tree in memory holds is
//! known, what a real folder holds is not.
#![tactic(auto)]

mod answers;
mod folder_io;
mod folder_mail;
mod given;
mod maildir;
mod memory_files;
mod names;
mod shift_tree;
mod still_tree;

pub use answers::{Got, Listing, MailError, Renamed};
pub use folder_mail::FolderMail;
pub use given::{Given, ReadAnswer};
pub use maildir::{MailFolder, Maildir};
pub use shift_tree::ShiftTree;
pub use still_tree::StillTree;
