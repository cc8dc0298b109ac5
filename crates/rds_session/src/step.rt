//! What comes in a step of a session, and what the step answers.
use rds_names::Fault;

/// How a session stands.
#[derive(Clone, Copy, Debug, PartialEq, Eq)]
pub enum Ended {
    /// It waits for more of the stream.
    Going,
    /// Both sides have told the other what it lacked, and said so.
    Done,
    /// It ended before that, for this reason.
    Failed(Fault),
}

impl Ended {
    ghost use Rattle.std.specs.Prelude.{◌≡◌, true, false};
    ghost use Rattle.rds_session.specs.declared.step.Ended.TheVariants.{Going};
    ghost use Rattle.rds_session.specs.Steps.{IsOver};

    /// Whether it waits for nothing more.
    pub fn is_over(self) -> bool
        ensures over { result ≡ true → IsOver self }
        ensures going { result ≡ false → self ≡ Going }
    {
        match self {
            Ended::Going => false,
            Ended::Done | Ended::Failed(_) => true,
        }
    }
}

/// What comes in a step.
#[derive(Clone, Copy, Debug)]
pub enum Input<'a> {
    /// The next bytes of the stream: a part of a message, or several.
    Bytes(&'a [u8]),
    /// The stream has ended.
    End,
}

/// What a step answers.
#[derive(Debug, Drop)]
pub struct Output {
    /// The bytes that are to be sent now.
    pub send: Vec<u8>,
    /// How the session stands after the step.
    pub ended: Ended,
}
