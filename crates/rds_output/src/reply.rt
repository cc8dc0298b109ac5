//! What the program replies to a line, or to a command on a file.
ghost use Rattle.std.specs.Prelude.{◌≡◌, OnOk, OnErr, IfErr, option_and_then};
ghost use Rattle.std.specs.Io.KnownBytes.{Appends};
ghost use Rattle.rds_names.specs.declared.fault.Fault.TheVariants.{Device};
ghost use Rattle.rds_keep.specs.Counted.{one_more};
ghost use Rattle.rds_keep.specs.Parts.{AppendsPart};
ghost use Rattle.rds_output.specs.Reply.{edit_reply, is_refusal, named_dot, reply_line};

use crate::digits::Digits;
use rds_dots::Dot;
use rds_keep::Writing;
use rds_names::{Fault, Name, Roster};
use rds_state::Edited;
use std::io::Write;

/// A reply. It is written as one line of JSON, and that takes no memory.
#[derive(Debug, Drop)]
pub enum Reply {
    /// It was done.
    Done,
    /// An edit was made.
    Edited {
        /// The new entry's dot: its replica and its number there.
        dot: Option<(Name, u64)>,
        /// How many entries were taken away.
        killed: u64,
    },
    /// A digest was made, under this number.
    Asked(u64),
    /// A delta was made.
    Answered {
        /// Its number.
        number: u64,
        /// How many components it has.
        components: u128,
    },
    /// A delta of so many components was taken.
    Taken(u128),
    /// The JSON of a view.
    Shown(String),
    /// It was refused, and nothing is changed.
    Refused(Fault),
    /// A line of an input was refused, and nothing is changed.
    RefusedLine {
        /// Which line of the input it is, from 1.
        line: u64,
        /// Why.
        fault: Fault,
    },
}

impl Reply {
    /// The reply to an edit of a replica of this roster.
    pub fn of_edit(roster: &Roster, edited: &Edited) -> Reply
        ensures { result ≡ edit_reply roster.now edited.now.dot edited.now.killed }
    {
        Reply::Edited {
            dot: named_in(roster, edited.dot),
            killed: edited.killed,
        }
    }

    /// Whether it is a refusal.
    pub fn is_refusal(&self) -> bool
        ensures { result ≡ is_refusal self.now }
    {
        matches!(self, Reply::Refused(_) | Reply::RefusedLine { .. })
    }

    /// Writes its line, piece by piece.
    pub fn write_to<W: Write>(&self, writer: &mut Writing<W>) -> Result<(), Fault>
        ensures bytes { OnOk result (Appends (W.contents writer.old.inner)
            (W.contents writer.new.inner) (reply_line self.now)) }
        ensures part { OnErr result (AppendsPart (W.contents writer.old.inner)
            (W.contents writer.new.inner) (reply_line self.now)) }
        ensures fault { IfErr result (λ e. e ≡ Device) }
        ensures steady { OnOk result (writer.new.failed ≡ writer.old.failed) }
        ensures counted { OnErr result (writer.new.failed ≡ one_more writer.old.failed) }
    {
        let (mut first, mut second) = (Digits::new(), Digits::new());
        match self {
            Reply::Done => writer.write_all(b"{\"ok\":true}\n"),
            Reply::Edited { dot, killed } => write_edited(writer, *dot, *killed),
            Reply::Asked(number) => {
                let number = first.of(u128::from(*number));
                writer.write_pieces(&[b"{\"ask\":", number, b"}\n"])
            }
            Reply::Answered { number, components } => {
                let number = first.of(u128::from(*number));
                let components = second.of(*components);
                writer.write_pieces(&[
                    b"{\"delta\":",
                    number,
                    b",\"components\":",
                    components,
                    b"}\n",
                ])
            }
            Reply::Taken(components) => {
                let components = first.of(*components);
                writer.write_pieces(&[b"{\"taken\":", components, b"}\n"])
            }
            Reply::Shown(text) => writer.write_pieces(&[text.as_bytes(), b"\n"]),
            Reply::Refused(fault) => {
                let number = first.of(u128::from(fault.number()));
                let name = fault.name().as_bytes();
                writer.write_pieces(&[b"{\"fault\":", number, b",\"name\":\"", name, b"\"}\n"])
            }
            Reply::RefusedLine { line, fault } => write_refused_line(writer, *line, *fault),
        }
    }
}

// Writes the line of an edit.
fn write_edited<W: Write>(
    writer: &mut Writing<W>,
    dot: Option<(Name, u64)>,
    killed: u64,
) -> Result<(), Fault>
    ensures bytes { OnOk result (Appends (W.contents writer.old.inner)
        (W.contents writer.new.inner) (reply_line (Reply.Edited dot killed))) }
    ensures part { OnErr result (AppendsPart (W.contents writer.old.inner)
        (W.contents writer.new.inner) (reply_line (Reply.Edited dot killed))) }
    ensures fault { IfErr result (λ e. e ≡ Device) }
    ensures steady { OnOk result (writer.new.failed ≡ writer.old.failed) }
    ensures counted { OnErr result (writer.new.failed ≡ one_more writer.old.failed) }
{
    let (mut first, mut second) = (Digits::new(), Digits::new());
    let killed = first.of(u128::from(killed));
    match dot {
        Some((name, seq)) => writer.write_pieces(&[
            b"{\"dot\":[\"",
            name.as_str().as_bytes(),
            b"\",",
            second.of(u128::from(seq)),
            b"],\"killed\":",
            killed,
            b"}\n",
        ]),
        None => writer.write_pieces(&[b"{\"dot\":null,\"killed\":", killed, b"}\n"]),
    }
}

// Writes the line of a refused line of an input.
fn write_refused_line<W: Write>(
    writer: &mut Writing<W>,
    line: u64,
    fault: Fault,
) -> Result<(), Fault>
    ensures bytes { OnOk result (Appends (W.contents writer.old.inner)
        (W.contents writer.new.inner) (reply_line (Reply.RefusedLine line fault))) }
    ensures part { OnErr result (AppendsPart (W.contents writer.old.inner)
        (W.contents writer.new.inner) (reply_line (Reply.RefusedLine line fault))) }
    ensures fault { IfErr result (λ e. e ≡ Device) }
    ensures steady { OnOk result (writer.new.failed ≡ writer.old.failed) }
    ensures counted { OnErr result (writer.new.failed ≡ one_more writer.old.failed) }
{
    let (mut first, mut second) = (Digits::new(), Digits::new());
    writer.write_pieces(&[
        b"{\"fault\":",
        first.of(u128::from(fault.number())),
        b",\"name\":\"",
        fault.name().as_bytes(),
        b"\",\"line\":",
        second.of(u128::from(line)),
        b"}\n",
    ])
}

// The name of the dot's replica, and the dot's number there.
fn named_in(roster: &Roster, dot: Option<Dot>) -> Option<(Name, u64)>
    ensures { result ≡ option_and_then (named_dot roster.now) dot }
{
    let dot = dot?;
    let name = roster.name_of(dot.replica)?;
    Some((name, dot.seq))
}
