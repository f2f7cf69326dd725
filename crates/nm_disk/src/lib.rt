//! Input and output: a disk of three files, which may crash at any moment: over the files of a folder, and in memory, where
//! its bytes and what a crash may leave are known, and it can crash within each of its calls.
#![tactic(auto)]

mod crash;
mod disk;
mod event;
mod file_disk;
mod file_io;
mod files;
mod mem_disk;
mod state;

pub use crash::Pick;
pub use disk::{Disk, DiskFault, DiskFolder, FileNo};
pub use file_disk::FileDisk;
pub use mem_disk::MemDisk;
