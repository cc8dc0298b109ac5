//! One end of a pair.
ghost use Rattle.std.specs.Prelude.{◌≡◌, ◌≤◌, ◌⊎◌, ℕ, List, [], None, true, false, length, Option, IfOk, IfErr, OnOk, OnErr};
ghost use Rattle.std.specs.Io.KnownBytes.{Appends, Consumes, IsAtEnd};
ghost use Rattle.rds_names.specs.declared.fault.Fault.TheVariants.{Device};
ghost use Rattle.rds_session.specs.declared.step.Ended.TheVariants.{Going, Failed};
ghost use Rattle.rds_session.specs.declared.talk.Side.{Side};
ghost use Rattle.rds_session.specs.Leaving.{Leaves};
ghost use Rattle.rds_session.specs.Received.{delivery_of};
ghost use Rattle.rds_session.specs.Steps.{IsOver, came};
ghost use Rattle.rds_state.specs.Fits.{ReplicaValue};
ghost use Rattle.rds_meetings.specs.Ends.{HasHeardAll, HasSaid, Hears, HearsOn, HeardTheEnd, TakesInput};
ghost use Rattle.rds_meetings.specs.Pairing.{IsPairEnd, StaysEnd};

use super::pending::Pending;
use rds_dots::DotSet;
use rds_keep::Kept;
use rds_names::Fault;
use rds_session::{Ended, Exchanged, Input, Session, Side};
use std::alloc::Global;
use std::io::{Read, Write};
use std::marker::Model;
use std::net::{OpenStream, Shutdown};

/// How many bytes an end writes in a turn.
const PIECE: usize = 1_024;

/// One end of a pair: a session, its stream, and the bytes that it has still to write. Where a call
/// on the stream fails, it stands as failed with `Device`.
#[derive(Drop)]
pub struct End<'a, T, S: DotSet> {
    session: Session<'a, S>,
    stream: T,
    pending: Pending,
    ended: Ended,
    is_shut: bool,
}

impl<'a, T, S: DotSet> Model for End<'a, T, S> {
    ghost use Rattle.rds_meetings.specs.Ends.{EndValue, coded_end};

    ghost Value = { EndValue T };

    ghost coded = { coded_end T.code };

    ghost view = { λ e. record {
      session = e.session;
      stream = e.stream;
      pending = e.pending;
      ended = e.ended;
      is_shut = e.is_shut;
    } };
}

impl<'a, T: Read + Write + OpenStream + Drop, S: DotSet> End<'a, T, S> {
    /// A session that has begun: what it says before it hears anything is to be written.
    pub fn begin(alloc: Global, side: Side, kept: &'a Kept<S>, stream: T) -> End<'a, T, S>
        ensures end { IsPairEnd side kept.now result.session result.ended }
        ensures hears { Hears side kept.now (T.remaining stream) (T.remaining stream) [] result }
        ensures stream { result.stream ≡ stream }
        ensures open { result.is_shut ≡ false }
    {
        let mut session = Session::new(side, kept);
        let output = session.step(alloc, Input::Bytes(&[]));
        End {
            session,
            stream,
            pending: Pending::of(output.send),
            ended: output.ended,
            is_shut: false,
        }
    }

    /// Whether there is something to write.
    pub fn has_pending(&self) -> bool
        ensures some { result ≡ true → 1 ≤ length self.now.pending }
        ensures none { result ≡ false → self.now.pending ≡ [] }
    {
        !self.pending.is_empty()
    }

    /// Whether the session has ended.
    pub fn is_over(&self) -> bool
        ensures over { result ≡ true → IsOver self.now.ended }
        ensures going { result ≡ false → self.now.ended ≡ Going }
    {
        self.ended.is_over()
    }

    /// Whether writing was shut down.
    pub fn is_shut(&self) -> bool
        ensures { result ≡ self.now.is_shut }
    {
        self.is_shut
    }

    /// Writes the next of the pending bytes, and answers how many: at most 1,024, so that a write never
    /// waits for the other end, which reads only after it.
    pub fn say(&mut self) -> Result<usize, Fault>
        ensures end { StaysEnd self.old.session self.old.ended self.new.session self.new.ended }
        ensures said { IfOk result
            (HasSaid self.old self.new (T.contents self.old.stream) (T.contents self.new.stream)) }
        ensures piece { IfOk result (λ count. count ≤ 1024) }
        ensures unsaid { OnErr result (Appends (T.contents self.old.stream) (T.contents self.new.stream) []) }
        ensures failed { OnErr result (self.new ≡ record self.old { stream = self.new.stream; ended = Failed Device }) }
        ensures fault { IfErr result (λ e. e ≡ Device) }
    {
        match self.stream.write(self.pending.front(PIECE)) {
            Ok(0) => Err(self.fail()),
            Ok(count) => {
                self.pending.advance(count);
                Ok(count)
            }
            Err(_) => Err(self.fail()),
        }
    }

    /// Shuts down writing, of an end that is over.
    pub fn shut_down(&mut self) -> Result<(), Fault>
        ensures end { StaysEnd self.old.session self.old.ended self.new.session self.new.ended }
        ensures shut { self.new ≡ record self.old { is_shut = true } }
        ensures fault { IfErr result (λ e. e ≡ Device) }
    {
        self.is_shut = true;
        match self.stream.shutdown(Shutdown::Write) {
            Ok(()) => Ok(()),
            Err(_) => Err(Fault::Device),
        }
    }

    /// Reads until it has so many bytes or the stream ends, and takes them.
    pub fn hear(&mut self, alloc: Global, count: usize) -> Result<(), Fault>
        ensures end { StaysEnd self.old.session self.old.ended self.new.session self.new.ended }
        ensures hears { HearsOn (T.remaining self.old.stream) (T.remaining self.new.stream) self.old self.new }
        ensures all { OnOk result
            (HasHeardAll count (T.remaining self.old.stream) (T.remaining self.new.stream) self.old self.new) }
        ensures shut { self.new.is_shut ≡ self.old.is_shut }
        ensures fault { IfErr result (λ e. e ≡ Device) }
    {
        let mut left = count;
        'reads: while left > 0 {
            let heard = self.hear_some(alloc, left)?;
            if heard == 0 {
                return Ok(());
            }
            left -= heard;
        }
        Ok(())
    }

    // One read of at most so many bytes, and a step with what was read.
    fn hear_some(&mut self, alloc: Global, most: usize) -> Result<usize, Fault>
        requires { 1 ≤ most }
        ensures within { IfOk result (λ count. count ≤ most) }
        ensures end { StaysEnd self.old.session self.old.ended self.new.session self.new.ended }
        ensures hears { HearsOn (T.remaining self.old.stream) (T.remaining self.new.stream) self.old self.new }
        ensures came { IfOk result
            (λ count. (bytes : List ℕ) × Consumes (T.remaining self.old.stream) (T.remaining self.new.stream) bytes
            × (length bytes ≡ count)) }
        ensures last { IfOk result
            (λ count. count ≡ 0
            → HeardTheEnd (T.remaining self.old.stream) (T.remaining self.new.stream) self.old self.new) }
        ensures shut { self.new.is_shut ≡ self.old.is_shut }
        ensures fault { IfErr result (λ e. e ≡ Device) }
    {
        let mut piece = [0u8; PIECE];
        let room = &mut piece[..most.min(PIECE)];
        match self.stream.read(room) {
            Ok(0) => {
                self.take(alloc, Input::End);
                Ok(0)
            }
            Ok(count) => {
                let (front, _) = room.split_at(count);
                self.take(alloc, Input::Bytes(front));
                Ok(count)
            }
            Err(_) => {
                if self.ended.is_over() {
                    return Err(Fault::Device);
                }
                Err(self.fail())
            }
        }
    }

    /// Takes the end of the stream.
    pub fn cut(&mut self, alloc: Global)
        ensures end { StaysEnd self.old.session self.old.ended self.new.session self.new.ended }
        ensures takes { TakesInput None self.old self.new }
    {
        self.take(alloc, Input::End)
    }

    // A step, unless the end is over. Where there is no memory for what it sends, that isn't sent.
    fn take(&mut self, alloc: Global, input: Input<'_>)
        ensures end { StaysEnd self.old.session self.old.ended self.new.session self.new.ended }
        ensures takes { TakesInput (came input.entry) self.old self.new }
    {
        if self.ended.is_over() {
            return;
        }
        let output = self.session.step(alloc, input);
        self.ended = match self.pending.add(output.send) {
            Ok(()) => output.ended,
            Err(fault) => Ended::Failed(fault),
        };
    }

    // A call on the stream failed before all was said and heard.
    fn fail(&mut self) -> Fault
        ensures end { StaysEnd self.old.session self.old.ended self.new.session self.new.ended }
        ensures failed { self.new ≡ record self.old { ended = Failed Device } }
        ensures fault { result ≡ Device }
    {
        self.ended = Ended::Failed(Fault::Device);
        Fault::Device
    }

    /// What the session came to. One that goes on has failed with `Device`.
    pub fn leave(self) -> Exchanged<S>
        ensures leaves { (side : Side) (kept : ReplicaValue) → IsPairEnd side kept self.entry.session self.entry.ended
            → Leaves side kept (delivery_of result.received result.roster) result.ended }
        ensures over { IsOver self.entry.ended → result.ended ≡ self.entry.ended }
        ensures going { self.entry.ended ≡ Going → result.ended ≡ Failed Device }
    {
        Exchanged::of(self.session, at_last(self.ended))
    }
}

// How an end stands that is left.
fn at_last(ended: Ended) -> Ended
    ensures over { IsOver ended → result ≡ ended }
    ensures going { ended ≡ Going → result ≡ Failed Device }
{
    match ended {
        Ended::Going => Ended::Failed(Fault::Device),
        ended => ended,
    }
}
