//! Whether two files that took from one another are forked, and what is told then.
ghost use Rattle.std.specs.Prelude.{◌≡◌, ◌↔◌, IfErr, IsTrue, OnErr, OnOk};
ghost use Rattle.std.specs.Io.KnownBytes.{Appends};
ghost use Rattle.rds_names.specs.declared.fault.Fault.TheVariants.{Device};
ghost use Rattle.rds_keep.specs.Counted.{one_more};
ghost use Rattle.rds_meetings.specs.Forks.{AreForked, EndForked, fork_text};

use crate::reports::note_forked;
use crate::settling::Settlement;
use rds_dots::DotSet;
use rds_keep::Writing;
use rds_names::Fault;
use rds_output::write_fault_line;
use rds_state::Replica;
use std::io::Write;

/// Whether two files both took what they received, and hold different entries of one dot since. Nothing that they send
/// one another mends that: a digest has no entries. Takes no memory.
pub fn end_forked<S: DotSet>(first: &Settlement<'_, S>, second: &Settlement<'_, S>) -> bool
    ensures { IsTrue result ↔ EndForked first.now.file second.now.file }
{
    match (&first.file, &second.file) {
        (Some(one), Some(other)) => are_forked(one.kept().view_of(), other.kept().view_of()),
        _ => false,
    }
}

// Whether two replicas of one group hold different entries of one dot.
fn are_forked<S: DotSet>(one: &Replica<S>, other: &Replica<S>) -> bool
    ensures { IsTrue result ↔ AreForked one.now other.now }
{
    let conflict = one.state().lives().conflict(other.state().lives());
    conflict.is_some() && one.roster().meets(other.roster())
}

/// Writes the line of `Forked` where a fork is reported, else nothing.
pub fn write_fork<W: Write>(writer: &mut Writing<W>, told: bool) -> Result<(), Fault>
    ensures bytes { OnOk result (Appends (W.contents writer.old.inner) (W.contents writer.new.inner) (fork_text told)) }
    ensures steady { OnOk result (writer.new.failed ≡ writer.old.failed) }
    ensures fault { IfErr result (λ e. e ≡ Device) }
    ensures counted { OnErr result (writer.new.failed ≡ one_more writer.old.failed) }
{
    if told {
        write_fault_line(writer, Fault::Forked)
    } else {
        Ok(())
    }
}

/// Tells on standard error that two files are forked, if they are, and what is to be done.
pub fn note_fork<H: Eprint>(rt: &H, first: &str, second: &str, told: bool) {
    if told {
        let _ = eprintln!(rt; "{first} and {second} hold different entries of one replica");
        note_forked(rt);
    }
}
