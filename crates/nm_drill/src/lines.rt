//! The lines of a mail, each by the mail's number, for `mail`.

ghost use Rattle.std.specs.Prelude.{◌≡◌, ◌≤◌, IfOk, string_bytes};
ghost use Rattle.nm_drill.specs.Drill.{answered, body_of, date_line, from_line, id_line, id_of, name_of, references_line, reply_mark, subject_line};

use crate::answered::{answered, group_of};
use crate::digits::clock_text;
use std::alloc::{AllocError, Global};

pub(crate) fn from_line(alloc: Global, number: u32) -> Result<String, AllocError>
    ensures { IfOk result (λ line. string_bytes line ≡ from_line number) }
{
    let name = name_of(number);
    format!(in alloc; "From: {name} <{name}@drill.example>\n")
}

fn name_of(number: u32) -> &'static str
    ensures { result.now ≡ name_of number }
{
    match number % 3 {
        0 => "Ann",
        1 => "Bob",
        _ => "Cara",
    }
}

pub(crate) fn subject_line(alloc: Global, number: u32) -> Result<String, AllocError>
    requires { 1 ≤ number }
    ensures { IfOk result (λ line. string_bytes line ≡ subject_line number) }
{
    let mark = reply_mark(answered(number));
    let group = group_of(number);
    let word = number % 10;
    format!(in alloc; "Subject: {mark}topic {group} w{word}\n")
}

/// What comes before the topic where a mail is answered.
fn reply_mark(answered: Option<u32>) -> &'static str
    ensures { result.now ≡ reply_mark answered }
{
    match answered {
        None => "",
        Some(_) => "Re: ",
    }
}

pub(crate) fn id_line(alloc: Global, number: u32) -> Result<String, AllocError>
    ensures { IfOk result (λ line. string_bytes line ≡ id_line number) }
{
    let id = id_of(alloc, number)?;
    format!(in alloc; "Message-ID: <{id}>\n")
}

fn id_of(alloc: Global, number: u32) -> Result<String, AllocError>
    ensures { IfOk result (λ id. string_bytes id ≡ id_of number) }
{
    format!(in alloc; "d{number}@drill.example")
}

pub(crate) fn date_line(alloc: Global, number: u32) -> Result<String, AllocError>
    requires { number ≤ 86399 }
    ensures { IfOk result (λ line. string_bytes line ≡ date_line number) }
{
    let time = clock_text(alloc, number)?;
    format!(in alloc; "Date: 01 Jan 2024 {time} +0000\n")
}

/// Names the mail that is answered, if any.
pub(crate) fn references_line(alloc: Global, answered: Option<u32>) -> Result<String, AllocError>
    ensures { IfOk result (λ line. string_bytes line ≡ references_line answered) }
{
    let Some(first) = answered else {
        return Ok(String::new(alloc));
    };
    let id = id_of(alloc, first)?;
    format!(in alloc; "References: <{id}>\n")
}

/// The empty line and the body.
pub(crate) fn body_of(alloc: Global, number: u32) -> Result<String, AllocError>
    ensures { IfOk result (λ line. string_bytes line ≡ body_of number) }
{
    format!(in alloc; "\nline {number}\n")
}
