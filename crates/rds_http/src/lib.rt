//! The HTTP service over a document in its file: what a request is answered, and what it changes. Read `routes` and
//! `access` first, then `asked`, `touched` and `tracked`, which has the document in its file. Then `replies`,
//! `refusals`, `conditions`, `reading`, `pulling`, `families`, `metrics`, `lines`, `changing`, `putting`, `login` and
//! `live`, and `reopening`, for a file that couldn't be written. `site` puts them together; `meeting` has what a site
//! asks of others, and they of it, and `news` what listeners are told.
#![tactic(auto)]

mod access;
mod asked;
mod changing;
mod conditions;
mod families;
mod lines;
mod live;
mod login;
mod meeting;
mod metrics;
mod news;
mod pulling;
mod putting;
mod ranges;
mod reading;
mod refusals;
mod reopening;
mod replies;
mod routes;
mod site;
mod touched;
mod tracked;

pub use access::Access;
pub use asked::LONGEST_QUESTION;
pub use metrics::{PeerCounts, PeerStanding};
pub use rds_store::Lacks;
pub use routes::{is_own_change, may_be_long, may_change};
pub use site::Site;
