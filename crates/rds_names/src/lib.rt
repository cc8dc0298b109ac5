//! What a document is made of: names of replicas and their roster, keys and paths, the values at
//! the leaves, and the faults by which calls refuse. A value exists only inside its limits.
#![tactic(auto)]

mod entry;
mod fault;
mod key;
mod laws;
mod name;
mod path;
mod roster;
mod scalar;

pub use entry::{Entry, Kind};
pub use fault::{Fault, Own};
pub use key::Key;
pub use laws::orders_of_values;
pub use name::Name;
pub use path::Path;
pub use roster::Roster;
pub use scalar::{Scalar, Text};
