//! What a replica sends to another that has told what it has: the digest, the least delta against it, the certificate
//! that each component of a delta is needed, and its check.
#![tactic(auto)]

mod certifying;
mod checking;
mod deltas;
mod digest;
mod inside;
mod killed;
mod laws;
mod row;
mod step;
mod stretches;

pub use certifying::certificate;
pub use checking::check;
pub use deltas::delta;
pub use digest::Digest;
pub use inside::is_inside;
pub use laws::{
    a_delta_has_one_result, checked_delta_laws, friends_exchange_deltas, least_delta_laws,
};
pub use row::{Certificate, Row};
pub use stretches::{Stretch, stretch_from};
