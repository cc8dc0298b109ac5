//! The lines that answer a body, written where there is room for them.
ghost use Rattle.std.specs.Prelude.{◌≡◌, ◌+◌, ◌*◌, ◌≤◌, ◌++◌, Some, codes, length, true};
ghost use Rattle.std.specs.Fmt.{decimal};
ghost use Rattle.std.specs.List.{list_all};
ghost use Rattle.rds_lines.specs.Editing.{replies_text};
ghost use Rattle.rds_lines.specs.Lines.{lines_in};
ghost use Rattle.rds_names.specs.Fault.{name_of};
ghost use Rattle.rds_output.specs.Reply.{is_refusal, reply_line};
ghost use Rattle.rds_output.specs.declared.reply.Reply.TheVariants.{Edited, RefusedLine};
ghost use Rattle.rds_http.specs.Lines.{is_short, line_count, line_status, lines_status};

use crate::refusals::status_of;
use bytes::BufMut;
use http::StatusCode;
use http_server::Rope;
use rds_names::{Fault, Name};
use rds_output::{Digits, Reply};

/// No line that answers an edit, a growth or a take has more bytes.
pub const LONGEST: usize = 128;

/// No more lines are taken in one body. The room for their answers is made before the first is done.
pub const MOST_LINES: usize = 524_288;

/// No number has more digits.
const DIGITS: usize = 39;

/// How many lines there are in a body at most.
pub fn line_count(body: &[u8]) -> usize
    ensures count { result ≡ line_count body.now }
    ensures most { length (lines_in body.now) ≤ result }
{
    body.iter().filter(|b| **b == b'\n').count() + 1
}

/// Whether all replies are refusals.
pub fn are_refusals(replies: &[Reply]) -> bool
    ensures { result ≡ list_all is_refusal replies.now }
{
    replies.iter().all(|reply| reply.is_refusal())
}

/// The status of replies: that of the first, where each line was refused, and there is one.
pub fn lines_status(replies: &[Reply]) -> StatusCode
    ensures { result ≡ lines_status replies.now }
{
    match replies.split_first() {
        Some((first, _)) if are_refusals(replies) => line_status(first),
        _ => StatusCode::OK,
    }
}

/// The status of one line: that of the fault by which it was refused.
fn line_status(reply: &Reply) -> StatusCode
    ensures { result ≡ line_status reply.now }
{
    match reply {
        Reply::RefusedLine { fault, .. } => status_of(*fault),
        _ => StatusCode::OK,
    }
}

/// Writes the lines of replies. There is room for them.
pub fn put_lines(body: &mut Rope, replies: &[Reply])
    requires short { list_all is_short replies.now ≡ true }
    requires room { LONGEST * length replies.now ≤ body.old.spare }
    ensures { body.new.items ≡ body.old.items ++ replies_text replies.now }
{
    for reply in replies {
        put_line(body, reply);
    }
}

/// Writes the line of a reply.
fn put_line(body: &mut Rope, reply: &Reply)
    requires short { is_short reply.now ≡ true }
    requires room { LONGEST ≤ body.old.spare }
    ensures line { body.new.items ≡ body.old.items ++ reply_line reply.now }
    ensures room { body.old.spare ≤ body.new.spare + LONGEST }
{
    match reply {
        Reply::Done => put(body, b"{\"ok\":true}\n"),
        Reply::Edited { dot, killed } => match dot {
            Some((name, seq)) => put_dot(body, *name, *seq, *killed),
            None => put_numbered(body, b"{\"dot\":null,\"killed\":", u128::from(*killed)),
        },
        Reply::RefusedLine { line, fault } => put_refusal(body, *line, *fault),
        Reply::Taken(components) => put_numbered(body, b"{\"taken\":", *components),
        _ => unreachable!(),
    }
}

/// Writes the line of an edit that made a dot live.
fn put_dot(body: &mut Rope, name: Name, seq: u64, killed: u64)
    requires { LONGEST ≤ body.old.spare }
    ensures line { body.new.items ≡ body.old.items ++ reply_line (Edited (Some (name, seq)) killed) }
    ensures room { body.old.spare ≤ body.new.spare + LONGEST }
{
    put(body, b"{\"dot\":[\"");
    put_name(body, name);
    put(body, b"\",");
    put_number(body, u128::from(seq));
    put(body, b"],\"killed\":");
    put_number(body, u128::from(killed));
    put(body, b"}\n");
}

/// Writes the line of a line that was refused.
fn put_refusal(body: &mut Rope, line: u64, fault: Fault)
    requires { LONGEST ≤ body.old.spare }
    ensures line { body.new.items ≡ body.old.items ++ reply_line (RefusedLine line fault) }
    ensures room { body.old.spare ≤ body.new.spare + LONGEST }
{
    put(body, b"{\"fault\":");
    put_number(body, u128::from(fault.number()));
    put(body, b",\"name\":\"");
    put_fault(body, fault);
    put(body, b"\",\"line\":");
    put_number(body, u128::from(line));
    put(body, b"}\n");
}

/// Writes a line that ends in a number.
fn put_numbered(body: &mut Rope, start: &[u8], number: u128)
    requires room { LONGEST ≤ body.old.spare }
    requires few { length start.now ≤ 32 }
    ensures items { body.new.items ≡ body.old.items ++ (start.now ++ (decimal number ++ codes "}\n")) }
    ensures room { body.old.spare ≤ body.new.spare + LONGEST }
{
    put(body, start);
    put_number(body, number);
    put(body, b"}\n");
}

/// Writes the name of a replica.
fn put_name(body: &mut Rope, name: Name)
    requires { 16 ≤ body.old.spare }
    ensures items { body.new.items ≡ body.old.items ++ name }
    ensures spare { body.old.spare ≤ body.new.spare + 16 }
{
    put(body, name.as_str().as_bytes());
}

/// Writes the name of a fault.
fn put_fault(body: &mut Rope, fault: Fault)
    requires { 16 ≤ body.old.spare }
    ensures items { body.new.items ≡ body.old.items ++ name_of fault }
    ensures spare { body.old.spare ≤ body.new.spare + 16 }
{
    put(body, fault.name().as_bytes());
}

/// Writes a number.
fn put_number(body: &mut Rope, number: u128)
    requires { DIGITS ≤ body.old.spare }
    ensures items { body.new.items ≡ body.old.items ++ decimal number }
    ensures spare { body.old.spare ≤ body.new.spare + DIGITS }
{
    let mut digits = Digits::new();
    put(body, digits.of(number));
}

/// Writes bytes. There is room for them.
fn put(body: &mut Rope, bytes: &[u8])
    requires { length bytes.now ≤ body.old.spare }
    ensures items { body.new.items ≡ body.old.items ++ bytes.now }
    ensures spare { body.old.spare ≤ body.new.spare + length bytes.now }
{
    match body.put_slice(bytes) {
        Ok(()) => (),
        Err(_) => unreachable!(),
    }
}
