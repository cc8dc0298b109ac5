//! Messages as they are sent: in chunks of 16,384 bytes, of which the last may be shorter.
ghost use Rattle.std.specs.Prelude.{◌≡◌, ◌++◌, ◌∷◌, ◌<◌, length, OnOk, IfErr};
ghost use Rattle.rds_names.specs.declared.fault.Fault.TheVariants.{Memory};
ghost use Rattle.rds_session.specs.Chunks.{message_in_chunks, chunk_text};
ghost use Rattle.rds_session.specs.Messages.{type_byte};
ghost use Rattle.rds_session.specs.Sending.{SendsOne};

use crate::chunks::MESSAGE_LIMIT;
use crate::kinds::MessageKind;
use rds_names::Fault;

/// The greatest length of a chunk that is sent.
const CHUNK: usize = 16_384;

fn put_chunk(send: &mut Vec<u8>, chunk: &[u8]) -> Result<(), Fault>
    requires { length chunk.now < 65536 }
    ensures ok { OnOk result (send.new.items ≡ send.old.items ++ chunk_text chunk.now) }
    ensures err { IfErr result (λ e. e ≡ Memory) }
{
    let length = (chunk.len() as u16).to_be_bytes();
    send.extend_from_slice(&length)?;
    send.extend_from_slice(chunk)?;
    Ok(())
}

// The chunk that begins with the message's type.
fn put_first(send: &mut Vec<u8>, kind: MessageKind, front: &[u8]) -> Result<(), Fault>
    requires { length front.now < 65535 }
    ensures ok { OnOk result (send.new.items ≡ send.old.items ++ chunk_text (type_byte kind ∷ front.now)) }
    ensures err { IfErr result (λ e. e ≡ Memory) }
{
    let length = (front.len() as u16 + 1).to_be_bytes();
    send.extend_from_slice(&length)?;
    send.push(kind.number())?;
    send.extend_from_slice(front)?;
    Ok(())
}

// The rest of a message, and its end.
#[tactic(auto, unfolding(crate::specs::Chunks::message_in_chunks))]
fn put_chunks(send: &mut Vec<u8>, message: &[u8]) -> Result<(), Fault>
    ensures ok { OnOk result (send.new.items ≡ send.old.items ++ message_in_chunks message.now) }
    ensures err { IfErr result (λ e. e ≡ Memory) }
{
    let mut rest = message;
    while !rest.is_empty() {
        let (chunk, more) = rest.split_at(rest.len().min(CHUNK));
        put_chunk(send, chunk)?;
        rest = more;
    }
    send.extend_from_slice(&[0, 0])?;
    Ok(())
}

/// Adds the message of this type and body, and says whether it is within the limit; one that isn't is not added.
#[tactic(auto, unfolding(crate::specs::Chunks::message_in_chunks))]
pub fn put_message(send: &mut Vec<u8>, kind: MessageKind, body: &[u8]) -> Result<bool, Fault>
    ensures { SendsOne send.old.items send.new.items (type_byte kind ∷ body.now) result }
{
    if MESSAGE_LIMIT <= body.len() {
        return Ok(false);
    }
    let (front, rest) = body.split_at(body.len().min(CHUNK - 1));
    put_first(send, kind, front)?;
    put_chunks(send, rest)?;
    Ok(true)
}
