//! Edits of a document.
ghost use Rattle.std.specs.Prelude.{◌≡◌, IfErr, IfOk, OnErr};
ghost use Rattle.rds_json.specs.Unnamed.{edit_of};
ghost use Rattle.rds_lines.specs.Editing.{EditsLines};
ghost use Rattle.rds_lines.specs.Lines.{lines_in};
ghost use Rattle.rds_names.specs.declared.fault.Fault.TheVariants.{Memory};
ghost use Rattle.rds_state.specs.Results.{EditsReplica};
ghost use Rattle.rds_store.specs.Edits.{MayEdit};

use crate::document::Document;
use rds_lines::edit_lines;
use rds_names::Fault;
use rds_output::Reply;
use rds_state::{Command, Edited};

impl Document {
    /// Edits the document: its state is joined with the command's effect. Setting, adding or deleting at the root is
    /// refused (`BadPath`); so is a dot or a counter's number past its limit (`SeqFull`, `CounterFull`).
    pub fn edit(&mut self, command: Command) -> Result<Edited, Fault>
        ensures { EditsReplica self.old command result self.new }
    {
        self.index.edit(command)
    }

    /// Edits the document as a line of JSON says, which names no replica: `["set",PATH,VALUE]`, `["add",PATH,VALUE]`,
    /// `["del",PATH,VALUE]`, `["clear",PATH]`, `["inc",KEY,AMOUNT]`, `["dec",KEY,AMOUNT]`. The line is judged first, as
    /// [`LineReader::edit`](rds_json::LineReader::edit) does (`BadLine`, `BadPath`, `BadKey`, `BadScalar`).
    pub fn edit_line(&mut self, line: &str) -> Result<Edited, Fault>
        ensures edited { MayEdit (edit_of line.now) self.old result self.new }
        ensures err { OnErr result (self.new ≡ self.old) }
    {
        let command = self.read_edit(line)?;
        self.edit(command)
    }

    /// Edits the document as lines of JSON say, one after the other, and answers each but the empty ones. A line that
    /// is refused changes nothing, and the next is gone on with; its answer has its number, from 1 over all lines.
    /// Where there is no memory for the answers it is `Memory`, and no line is read.
    pub fn edit_lines(&mut self, lines: &[u8]) -> Result<Vec<Reply>, Fault>
        ensures edited { IfOk result (λ answers. EditsLines (lines_in lines.now) self.old self.new answers.items) }
        ensures memory { IfErr result (λ fault. fault ≡ Memory) }
        ensures err { OnErr result (self.new ≡ self.old) }
    {
        edit_lines(self.alloc, &mut self.reader, &mut self.index, lines)
    }
}
