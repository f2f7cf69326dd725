//! The log of a session, which `nm_session` keeps and `nm_top` hands back, and what a run is given.

use crate::Outcome;
use nm_base::Many;
use nm_maildir::Given;
use nm_model_answer::Request;
use nm_model_machine::Step;

/// What a run of the program is given beside its words and devices.
#[derive(Drop)]
pub struct Setting {
    /// The present second, counted from 1970-01-01 00:00:00 UTC.
    pub moment: i64,
    /// Names an index that is made anew.
    pub seed: u128,
    /// How many threads read mail, 1 to 16.
    pub workers: u32,
}

/// What a session did with one line of its script.
#[derive(Drop)]
pub struct LineLog {
    /// The phase of the line, from 0.
    pub phase: u32,
    pub lane: u32,
    /// The number of the line in the script, from 1.
    pub line: u32,
    /// The revision of the index that answered.
    pub revision: u64,
    pub status: u8,
    pub outcome: Outcome,
    /// The reply, or the line of the refusal.
    pub text: Many<u8>,
    /// What the mail folder answered, in order.
    pub given: Many<Given>,
    /// How often the mail folder had failed when the line ended.
    pub mail_faults: u64,
    /// And the disk.
    pub disk_faults: u64,
    /// Whether the disk failed in the line, so that the index is closed to all later ones.
    pub disk_failed: bool,
}

/// What was replied to a line, and to what.
#[derive(Drop)]
pub struct Said {
    pub request: Request,
    pub text: Many<u8>,
}

/// What a session did.
#[derive(Drop)]
pub struct SessionLog {
    /// Its commits and its replies, in the order in which they came.
    pub steps: Many<Step>,
    pub lines: Many<LineLog>,
    /// For each commit that was acknowledged, in order, the clock of the disk at that moment.
    pub acked: Many<u64>,
}

/// How a run of the program ended.
#[derive(Drop)]
pub struct Done {
    /// What the process exits with.
    pub status: u8,
    pub log: SessionLog,
}
