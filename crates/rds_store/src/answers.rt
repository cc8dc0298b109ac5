//! The lines that edits are answered.
ghost use Rattle.std.specs.Prelude.{◌≡◌, IfErr};
ghost use Rattle.rds_names.specs.declared.fault.Fault.TheVariants.{Memory};

use rds_keep::Writing;
use rds_lines::write_replies;
use rds_names::Fault;
use rds_output::Reply;
use std::alloc::Global;

/// Answers as `rds_node edit FILE` writes them, a line of JSON each.
pub fn answers_text(alloc: Global, answers: &[Reply]) -> Result<Vec<u8>, Fault>
    ensures memory { IfErr result (λ fault. fault ≡ Memory) }
{
    let mut text = Vec::new(alloc);
    let mut writer = Writing::new(&mut text);
    let _status = write_replies(&mut writer, answers);
    if writer.failed() != 0 {
        return Err(Fault::Memory);
    }
    Ok(text)
}
