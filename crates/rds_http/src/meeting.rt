//! What a site asks of other replicas, answers them and takes from them, where no request of theirs leads to it.
ghost use Rattle.std.specs.Prelude.{◌≡◌, IfErr, IfOk, OnErr};
ghost use Rattle.rds_offline.specs.Letters.{TakesResponse};
ghost use Rattle.rds_store.specs.Meetings.{MayAnswer, MayAsk, MayTellLacks, RefusesTaking, TellsLevel};
ghost use Rattle.rds_questions.specs.Tags.{IsTagOf, RefusesTag};
ghost use Rattle.rds_http.specs.Answers.{KeepsRest};
ghost use Rattle.rds_http.specs.Changes.{MayAnswerAs};

use crate::changing::take_answer;
use crate::metrics::PeerCounts;
use crate::pulling::respond_as;
use crate::site::Site;
use rds_files::Disk;
use rds_names::Fault;
use rds_questions::Tag;
use rds_store::Lacks;

impl<H: Disk> Site<'_, H> {
    /// The number of the document's replica.
    pub fn own(&self) -> u8
        ensures { result ≡ self.now.document.own }
    {
        self.held.file.document().replica().own()
    }

    /// The tag of what [`ask`](Site::ask) asks. It is made anew only where the document may have changed. A digest
    /// above the limit has none (`TooLong`).
    pub fn tag(&mut self) -> Result<Tag, Fault>
        ensures tag { IfOk result (IsTagOf self.old.document) }
        ensures fault { IfErr result (RefusesTag self.old.document) }
        ensures same { self.new ≡ self.old }
    {
        self.held.file.tag()
    }

    /// What asks another replica for what the document lacks, as [`Document::ask`](rds_store::Document::ask) writes it.
    pub fn ask(&self) -> Result<Vec<u8>, Fault>
        ensures { MayAsk self.now.document result }
    {
        self.held.file.document().ask()
    }

    /// What answers another replica's question, as [`Document::answer`](rds_store::Document::answer) does, and refuses.
    pub fn answer(&self, question: &[u8]) -> Result<Vec<u8>, Fault>
        ensures { MayAnswer question.now self.now.document result }
    {
        self.held.file.document().answer(question)
    }

    /// What answers the replica of a number as if it had asked a question of this replica's.
    pub fn answer_as(&self, number: u8, question: &[u8]) -> Result<Vec<u8>, Fault>
        ensures { MayAnswerAs number question.now self.now.document result }
    {
        respond_as(self.alloc, self.held.file.document(), number, question)
    }

    /// Takes what answers a question of this replica's, in memory, and tells how many components that brought, as
    /// [`Document::take`](rds_store::Document::take) does, and refuses. What came is noted as a change.
    pub fn take(&mut self, question: &[u8], answer: &[u8]) -> Result<u128, Fault>
        ensures taken { IfOk result
            (TakesResponse question.now answer.now self.old.document self.new.document) }
        ensures fault { IfErr result (RefusesTaking question.now answer.now self.old.document) }
        ensures rest { KeepsRest self.old self.new }
        ensures err { OnErr result (self.new ≡ self.old) }
    {
        take_answer(&mut self.held, &mut self.metrics, question, answer)
    }

    /// What the document lacks of another replica's that asked, and that of the document's, as
    /// [`Document::lacks`](rds_store::Document::lacks) tells, and refuses.
    pub fn lacks(&self, question: &[u8]) -> Result<Lacks, Fault>
        ensures told { MayTellLacks question.now self.now.document result }
        ensures level { IfOk result (TellsLevel question.now self.now.document) }
    {
        self.held.file.document().lacks(question)
    }

    /// Notes how many other nodes there are, and what came of meeting them, for the metrics.
    pub fn note_peers(&mut self, peers: PeerCounts)
        ensures { self.new ≡ self.old }
    {
        self.metrics.peers = peers;
    }
}
