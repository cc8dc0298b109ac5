//! Documents move between threads.
ghost use Rattle.std.specs.Prelude.{◌≡◌};

use crate::document::Document;

/// A value that another thread may have.
fn sent<T: Send>(value: T) -> T
    ensures { result ≡ value }
{
    value
}

/// A document, which another thread may have: nothing of it is shared but by atomic counts.
pub fn sent_document(document: Document) -> Document
    ensures { result ≡ document }
{
    sent(document)
}
