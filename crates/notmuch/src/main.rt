//! Commands and replies: the program `notmuch`: one run of the top call `program` over the folders of the system, the standard streams and the
//! clock.
#![tactic(auto)]

mod pages;

ghost use Rattle.std.specs.Prelude.{pos, ◌≤ℤ◌};
ghost use Rattle.nm_base.specs.Limits.{max_date};

use nm_base::{Many, NoMemory, Text, UsageKind};
use nm_disk::FileDisk;
use nm_io::{Sink, StdSink, StdSource};
use nm_log::{print_text, print_usage};
use nm_maildir::FolderMail;
use nm_top::{Start, program};
use pages::{HELP, VERSION};
use std::alloc::Global;
use std::io::{self, BufWriter};
use std::process::ExitCode;
use std::random::RandomSource;
use std::rt::{Clock, Env};
use std::time::SystemTime;
use std::{env, mem};

/// The last second that a run may begin at.
const LAST_MOMENT: u64 = 253_000_000_000;

/// Why the program is not run.
#[derive(Drop)]
enum StartFault {
    /// A word is not UTF-8.
    Utf8,
    NoMemory,
}

impl From<NoMemory> for StartFault {
    fn from(_: NoMemory) -> StartFault {
        StartFault::NoMemory
    }
}

fn main(rt: HostRuntime) -> ExitCode {
    let alloc = rt.alloc();
    let mut err = StdSink::new(rt.stderr());
    let words = match read_words(&rt, alloc) {
        Ok(words) => words,
        Err(fault) => return refuse(&mut err, &fault),
    };
    if let Some(page) = page_of(words.as_slice()) {
        let mut out = StdSink::new(rt.stdout());
        return print_page(&mut out, page);
    }
    let start = Start {
        moment: present_second(&rt),
        seed: fresh_seed(&rt),
    };
    let mut input = StdSource::new(rt.stdin());
    let Ok(writer) = BufWriter::new(alloc, rt.stdout()) else {
        return refuse(&mut err, &StartFault::NoMemory);
    };
    let mut out = StdSink::new(writer);
    let mut disk = FileDisk::new(rt);
    let mut mail = FolderMail::new(rt);
    let done = program(
        &rt,
        alloc,
        &start,
        words.as_slice(),
        &mut mail,
        &mut disk,
        &mut input,
        &mut out,
        &mut err,
    );
    let status = done.status;
    // The log may be large, and the system takes back the memory of a process that ends.
    mem::forget(done);
    ExitCode::from(status)
}

/// The page that the first and only word asks for.
fn page_of(words: &[Text]) -> Option<&'static [u8]> {
    match words {
        [word] => match word.as_str() {
            "--help" => Some(HELP),
            "--version" => Some(VERSION),
            _ => None,
        },
        _ => None,
    }
}

fn print_page<O: Sink>(out: &mut O, page: &[u8]) -> ExitCode {
    match print_text(out, page) {
        Ok(()) => ExitCode::SUCCESS,
        Err(_) => ExitCode::from(6),
    }
}

/// Ends a run without the program: says why, and gives the status.
fn refuse<E: Sink>(err: &mut E, fault: &StartFault) -> ExitCode {
    match fault {
        StartFault::Utf8 => {
            let _ = print_usage(err, UsageKind::Utf8, "");
            ExitCode::from(2)
        }
        StartFault::NoMemory => {
            let _ = print_text(err, b"notmuch: no memory\n");
            ExitCode::from(7)
        }
    }
}

/// The words after the program's own name.
fn read_words<R: Env + AllocGlobal>(rt: &R, alloc: Global) -> Result<Many<Text>, StartFault> {
    let mut words = Many::new(alloc);
    let args = match env::args(rt) {
        Ok(args) => args,
        Err(error) if error.kind() == io::ErrorKind::InvalidData => return Err(StartFault::Utf8),
        Err(_) => return Err(StartFault::NoMemory),
    };
    for arg in args.skip(1) {
        words.push(Text::from_string(arg)?)?;
    }
    Ok(words)
}

/// Seconds since 1970-01-01 00:00:00 UTC, or 0 where the clock tells none.
fn present_second(rt: &impl Clock) -> i64
    ensures from_1970 { pos 0 ≤ℤ result }
    ensures moment { result ≤ℤ pos max_date }
{
    let seconds = seconds_since_1970(rt).min(LAST_MOMENT);
    seconds as i64
}

fn seconds_since_1970(rt: &impl Clock) -> u64 {
    let Ok(now) = SystemTime::now(rt) else {
        return 0;
    };
    match now.duration_since(SystemTime::UNIX_EPOCH) {
        Ok(time) => time.as_secs(),
        Err(_) => 0,
    }
}

/// A number that no other run has, or 0 where the system gives no random bytes.
fn fresh_seed(rt: &impl RandomSource) -> u128 {
    let mut bytes = [0u8; 16];
    match rt.fill_bytes(&mut bytes) {
        Ok(()) => u128::from_be_bytes(bytes),
        Err(_) => 0,
    }
}
