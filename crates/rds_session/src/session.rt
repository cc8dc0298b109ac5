//! One end of a session.
ghost use Rattle.rds_session.specs.declared.chunks.TheConstants.{MESSAGE_LIMIT};
ghost use Rattle.std.specs.Prelude.{◌≡◌, ◌≢◌, ◌<◌, ◌≤◌, [], true, false, None, Ok, OnOk, OnErr, IfOk, IfErr, length};
ghost use Rattle.std.specs.Option.{option_copied};
ghost use Rattle.rds_names.specs.declared.fault.Fault.TheVariants.{Memory};

use crate::chunks::{Chunks, Scanned};
use crate::judging::{accept, expected_of};
use crate::kinds::ByeCode;
use crate::message::Message;
use crate::sending::{send_bye, send_opening, send_replies};
use crate::step::{Ended, Input, Output};
use crate::talk::{Act, Side, Stop, Turn, code_of};
use rds_dots::DotSet;
use rds_keep::Kept;
use rds_names::{Fault, Roster};
use rds_state::State;
use std::alloc::Global;
use std::marker::Model;

/// One end of a session: it tells what was kept here, and receives what the peer has and it lacks. All that it sends
/// comes from the replica that it was lent.
///
/// A client speaks one version, and refuses a server of another. A server speaks the version that its client says, and
/// refuses one that it doesn't know. Its HELLO says that version, and the deltas of both are in that version's format.
///
/// From version 3 on the last message of each side says the mark of what it holds by then. Where the two differ, both have
/// seen the same and hold different entries: the session has failed with `Forked` at both ends. What it received stays.
///
/// From version 4 on each side says its digest by its hash (SHA-256) first, and whole only where the peer has another one.
/// So two that hold the same are done by a few short messages, however much that is. In version 5 a digest that is said
/// whole is its brief, so that deleted dots take few bytes. Only the server says its own: the client says behind it what
/// it wants of that.
///
/// One of the two rosters begins the other: they are equal, or one of them has grown since. What the peer tells is read
/// as of the replicas of the longer one, so that a peer whose roster has grown may tell of replicas that aren't named
/// here yet.
pub struct Session<'a, S: DotSet> {
    side: Side,
    kept: &'a Kept<S>,
    begun: bool,
    turn: Turn<S>,
    received: Option<(State<S>, Option<Roster>)>,
    ended: Ended,
    under: Option<Chunks<S>>,
}

// Written out, so that where a session is let go a caller's proof has one call, and not a step for each part of its
// parts.
impl<'a, S: DotSet> Drop for Session<'a, S> {
    fn drop(self) {
        let Session {
            side: _,
            kept: _,
            begun: _,
            turn: _turn,
            received: _received,
            ended: _,
            under: _under,
        } = self;
    }
}

impl<'a, S: DotSet> Model for Session<'a, S> {
    ghost use Rattle.rds_session.specs.Code.{coded_standing};
    ghost use Rattle.rds_session.specs.Expecting.{IsExpecting, under_of};
    ghost use Rattle.rds_session.specs.Judging.{wait_of};
    ghost use Rattle.rds_session.specs.Received.{IsSound};
    ghost use Rattle.rds_session.specs.Session.{Standing};

    ghost Value = { Standing };

    ghost coded = { coded_standing };

    ghost view = { λ s. record {
      side = s.side;
      kept = s.kept.now;
      begun = s.begun;
      turn = wait_of s.turn;
      received = s.received;
      ended = s.ended;
      under = under_of s.under;
    } };

    ghost invariant = { λ s. IsSound s.kept.now (wait_of s.turn) s.ended s.received
        × IsExpecting s.kept.now (wait_of s.turn) s.under };
}

impl<'a, S: DotSet> Session<'a, S> {
    ghost use Rattle.rds_state.specs.Fits.{ReplicaValue};
    ghost use Rattle.rds_session.specs.declared.step.Ended.TheVariants.{Going};
    ghost use Rattle.rds_session.specs.declared.talk.Side.{Side};
    ghost use Rattle.rds_session.specs.declared.talk.Side.TheVariants.{Server};
    ghost use Rattle.rds_session.specs.Chunks.{start_of_chunks};
    ghost use Rattle.rds_session.specs.Contents.{expected_of};
    ghost use Rattle.rds_session.specs.Judging.{StopsByNoDevice, saying_of};
    ghost use Rattle.rds_session.specs.Received.{
      Brings,
      HasChecked,
      IsDoneBy,
      IsLongerIfThere,
      delta_of,
      roster_received,
    };
    ghost use Rattle.rds_session.specs.declared.talk.Stop.TheVariants.{Refused};
    ghost use Rattle.rds_session.specs.Session.{failure, after_said, refuses, after_verdict, message_comes, after_opening, after_step, cut_off, Heard, Nothing};
    ghost use Rattle.rds_session.specs.Steps.{came, TakesNoMemory, Continues, TakesStep, HasStanding, IsLastWord, IsNoDevice, IsOver, Ran, Runs, Steps, Works};

    /// A session that hasn't begun. Takes no memory.
    #[tactic(auto, unfolding(crate::specs::Session::course))]
    pub fn new(side: Side, kept: &'a Kept<S>) -> Session<'a, S>
        ensures standing { HasStanding side kept.now Nothing result }
        ensures going { result.ended ≡ Going }
    {
        Session {
            side,
            kept,
            begun: false,
            turn: Turn::Hello { side },
            received: None,
            ended: Ended::Going,
            under: None,
        }
    }

    /// The delta that was received.
    pub fn received(&self) -> Option<&State<S>>
        ensures received { option_copied result ≡ delta_of self.now.received }
        ensures checked { HasChecked self.now.kept self.now.received }
        ensures done { IsDoneBy self.now.ended self.now.received }
    {
        match &self.received {
            None => None,
            Some((delta, _)) => Some(delta),
        }
    }

    /// The peer's roster, where a delta was received and that roster is longer than the own one: the delta may have
    /// components of replicas that the own roster doesn't name yet, so the own roster grows to it first. Takes no
    /// memory.
    pub fn roster(&self) -> Option<&Roster>
        ensures roster { option_copied result ≡ roster_received self.now.received }
        ensures longer { IsLongerIfThere self.now.kept.roster (roster_received self.now.received) }
    {
        match &self.received {
            None => None,
            Some((_, roster)) => roster.as_ref(),
        }
    }

    /// The delta that was received, and the peer's roster where that is longer than the own one, taken out of the
    /// session. Takes no memory.
    pub fn into_received(self) -> Option<(State<S>, Option<Roster>)>
        ensures received { result ≡ self.entry.received }
        ensures checked { HasChecked self.entry.kept result }
        ensures done { IsDoneBy self.entry.ended result }
    {
        let Session {
            side: _,
            kept: _,
            begun: _,
            turn: _turn,
            received: delivery,
            ended: _,
            under: _under,
        } = self;
        delivery
    }

    /// Takes the next bytes of the stream, or its end, and answers what is to be sent, and how the session stands.
    /// What it sends in all, how it ends and what it receives doesn't depend on how the stream is cut into steps.
    ///
    /// The first step of a client sends what it begins with, whatever comes in it. After the end each step answers
    /// that end and sends nothing. Where memory runs out the session fails (`Memory`), and what it received stays. A
    /// step without bytes takes no memory, but a client's first.
    pub fn step(&mut self, alloc: Global, input: Input<'_>) -> Output
        ensures course { (side : Side) (kept : ReplicaValue) (heard : Heard) → HasStanding side kept heard self.old
            → Continues side kept heard (came input.entry) self.new result.send.items }
        ensures ended { result.ended ≡ self.new.ended }
        ensures over { IsOver self.old.ended → (self.new ≡ self.old) × (result.send.items ≡ []) }
        ensures end { self.old.begun ≡ true → came input.entry ≡ None → (self.new ≡ (cut_off self.old).0)
            × (result.send.items ≡ []) }
        ensures nothing { TakesNoMemory self.old (came input.entry)
            → (self.new ≡ (after_step self.old (came input.entry)).0)
            × (result.send.items ≡ (after_step self.old (came input.entry)).1) }
        ensures device { IsNoDevice self.old.ended → IsNoDevice self.new.ended }
        ensures kept { self.new.kept ≡ self.old.kept }
    {
        match self.ended {
            Ended::Going => {
                let send = self.go_on(alloc, input);
                Output {
                    send,
                    ended: self.ended,
                }
            }
            Ended::Done | Ended::Failed(_) => Output {
                send: Vec::new(alloc),
                ended: self.ended,
            },
        }
    }

    fn go_on(&mut self, alloc: Global, input: Input<'_>) -> Vec<u8>
        requires { self.old.ended ≡ Going }
        ensures steps { Steps self.old (came input.entry) self.new result.items }
        ensures known { IsNoDevice self.new.ended }
        ensures kept { self.new.kept ≡ self.old.kept }
    {
        let mut send = Vec::new(alloc);
        match self.work(alloc, input, &mut send) {
            Ok(()) => send,
            Err(_) => self.give_up(alloc),
        }
    }

    // Memory ran out: the peer is told, if that can be.
    fn give_up(&mut self, alloc: Global) -> Vec<u8>
        ensures failed { self.new ≡ failure self.old Memory }
        ensures send { IsLastWord result.items }
    {
        self.fail(Fault::Memory);
        let mut send = Vec::new(alloc);
        match send_bye(&mut send, ByeCode::OwnFault) {
            Ok(_) => send,
            Err(_) => Vec::new(alloc),
        }
    }

    fn work(&mut self, alloc: Global, input: Input<'_>, send: &mut Vec<u8>) -> Result<(), Fault>
        ensures works { Works self.old send.old.items (came input.entry) self.new send.new.items result }
        ensures known { OnOk result (IsNoDevice self.old.ended → IsNoDevice self.new.ended) }
        ensures kept { self.new.kept ≡ self.old.kept }
    {
        self.open(alloc, send)?;
        match input {
            Input::Bytes(piece) => self.run(alloc, piece, send),
            Input::End => {
                self.cut_off();
                Ok(())
            }
        }
    }

    #[tactic(auto, unfolding(crate::specs::Session::after_opening), using(crate::proofs::Moves::all_sent, crate::proofs::Moves::some_sent),)]
    fn open(&mut self, alloc: Global, send: &mut Vec<u8>) -> Result<(), Fault>
        ensures does { TakesStep self.old send.old.items self.new send.new.items result after_opening }
        ensures begins { OnErr result ((self.old.begun ≡ false) × (self.old.side ≢ Server)) }
        ensures known { OnOk result (IsNoDevice self.old.ended → IsNoDevice self.new.ended) }
        ensures kept { self.new.kept ≡ self.old.kept }
    {
        if self.begun {
            return Ok(());
        }
        match self.side {
            Side::Client { version } => {
                let hashed = version.says_hashes();
                let all = send_opening(alloc, send, self.kept.view_of(), version, hashed)?;
                if all {
                    self.begun = true;
                } else {
                    send_bye(send, ByeCode::OwnFault)?;
                    self.begun = true;
                    self.fail(Fault::TooLong);
                }
            }
            Side::Server => self.begun = true,
        }
        Ok(())
    }

    fn run(&mut self, alloc: Global, piece: &[u8], send: &mut Vec<u8>) -> Result<(), Fault>
        ensures runs { Runs self.old send.old.items piece.now self.new send.new.items result }
        ensures some { OnErr result (0 < length piece.now) }
        ensures known { OnOk result (IsNoDevice self.old.ended → IsNoDevice self.new.ended) }
        ensures kept { self.new.kept ≡ self.old.kept }
    {
        let mut rest = piece;
        while !rest.is_empty() {
            rest = self.take_one(alloc, rest, send)?;
        }
        Ok(())
    }

    // Takes bytes up to the end of a message, and answers the rest.
    fn take_one<'p>(
        &mut self,
        alloc: Global,
        piece: &'p [u8],
        send: &mut Vec<u8>,
    ) -> Result<&'p [u8], Fault>
        requires { 0 < length piece.now }
        ensures ran { IfOk result (λ rest. Ran self.old send.old.items piece.now self.new send.new.items rest.now) }
        ensures less { IfOk result (λ rest. length rest.now < length piece.now) }
        ensures kept { self.new.kept ≡ self.old.kept }
        ensures known { OnOk result (IsNoDevice self.old.ended → IsNoDevice self.new.ended) }
        ensures err { IfErr result (λ e. (e ≡ Memory) × (self.new.received ≡ self.old.received)) }
    {
        match self.ended {
            Ended::Going => {}
            Ended::Done | Ended::Failed(_) => return Ok(&[]),
        }
        match self.under_way().take(alloc, piece)? {
            Scanned::More(chunks) => {
                self.under = Some(chunks);
                Ok(&[])
            }
            Scanned::Whole(message, rest) => {
                self.message(alloc, message, send)?;
                Ok(rest)
            }
            Scanned::Long => {
                self.refuse(Fault::TooLong, send)?;
                Ok(&[])
            }
        }
    }

    // Takes what has come of a message out of the session.
    fn under_way(&mut self) -> Chunks<S>
        ensures taken { self.new ≡ record self.old { under = start_of_chunks } }
        ensures chunks { result
            ≡ record { expected = expected_of self.old.kept self.old.turn; under = self.old.under } }
    {
        match self.under.take() {
            Some(chunks) => chunks,
            None => Chunks::new(expected_of(self.kept.view_of(), &self.turn)),
        }
    }

    #[tactic(auto, unfolding(crate::specs::Session::message_comes))]
    fn message(
        &mut self,
        alloc: Global,
        message: Message<S>,
        send: &mut Vec<u8>,
    ) -> Result<(), Fault>
        requires within { length message.came ≤ MESSAGE_LIMIT }
        requires expected { message.expected ≡ expected_of self.old.kept self.old.turn }
        ensures does { TakesStep (record self.old { under = start_of_chunks })
            send.old.items self.new send.new.items result
            (λ s. message_comes s message.came) }
        ensures known { OnOk result (IsNoDevice self.old.ended → IsNoDevice self.new.ended) }
        ensures kept { self.new.kept ≡ self.old.kept }
    {
        match accept(alloc, self.kept.view_of(), &self.turn, message) {
            Ok(act) => self.answer(alloc, act, send),
            Err(Stop::Left(fault)) => {
                self.fail(fault);
                Ok(())
            }
            Err(Stop::Refused(fault)) => match fault {
                Fault::Memory => Err(Fault::Memory),
                fault => self.refuse(fault, send),
            },
        }
    }

    // Answers an accepted message, and does what it says.
    #[tactic(auto, using(crate::proofs::Moves::all_sent, crate::proofs::Moves::some_sent))]
    fn answer(&mut self, alloc: Global, act: Act<S>, send: &mut Vec<u8>) -> Result<(), Fault>
        requires { Brings self.old.kept self.old.turn act }
        ensures does { TakesStep (record self.old { under = start_of_chunks })
            send.old.items self.new send.new.items result
            (λ s. after_verdict s (Ok (saying_of act))) }
        ensures known { OnOk result (IsNoDevice self.old.ended → IsNoDevice self.new.ended) }
        ensures kept { self.new.kept ≡ self.old.kept }
    {
        let all = send_replies(
            alloc,
            send,
            self.side,
            self.kept.view_of(),
            &self.turn,
            &act,
        )?;
        if all {
            self.perform(act);
        } else {
            send_bye(send, ByeCode::OwnFault)?;
            self.perform(act);
            self.fail(Fault::TooLong);
        }
        Ok(())
    }

    fn perform(&mut self, act: Act<S>)
        requires { Brings self.old.kept self.old.turn act }
        ensures performed { self.new ≡ after_said (record self.old { under = start_of_chunks }) (saying_of act) }
        ensures known { IsNoDevice self.old.ended → IsNoDevice self.new.ended }
    {
        self.under = None;
        match act {
            Act::Greet(peer) => self.turn = Turn::Digest { peer },
            Act::Learn(peer, digest) | Act::Share(peer, digest) => {
                self.turn = Turn::Delta { peer, digest };
            }
            Act::Miss(peer) => self.turn = Turn::Whole { peer },
            Act::Receive(delta, roster, mark) => {
                self.turn = Turn::Bye { mark };
                self.received = Some((delta, roster));
            }
            Act::Finish => self.ended = Ended::Done,
            Act::Fork => self.ended = Ended::Failed(Fault::Forked),
        }
    }

    // Refuses with a BYE.
    fn refuse(&mut self, fault: Fault, send: &mut Vec<u8>) -> Result<(), Fault>
        ensures does { TakesStep self.old send.old.items self.new send.new.items result (λ s. refuses s fault) }
        ensures known { OnOk result (StopsByNoDevice (Refused fault) → IsNoDevice self.new.ended) }
        ensures kept { self.new.kept ≡ self.old.kept }
    {
        send_bye(send, code_of(fault))?;
        self.fail(fault);
        Ok(())
    }

    fn fail(&mut self, fault: Fault)
        ensures { self.new ≡ failure self.old fault }
    {
        self.ended = Ended::Failed(fault);
        self.under = None;
    }

    fn cut_off(&mut self)
        ensures cut { self.new ≡ (cut_off self.old).0 }
        ensures known { IsNoDevice self.old.ended → IsNoDevice self.new.ended }
    {
        match self.ended {
            Ended::Going => self.fail(Fault::PeerEnded),
            Ended::Done | Ended::Failed(_) => {}
        }
    }
}
