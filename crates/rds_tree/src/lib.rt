//! What a document shows at a path, found over a nested tree of its live dots.
#![tactic(auto)]

mod by_kind;
mod by_value;
mod counting;
mod covered;
mod document;
mod dot_list;
mod edit_delta;
mod found;
mod index;
mod indexing;
mod laws;
mod leaf;
mod leaves;
mod marking;
mod node;
mod one_key;
mod pick;
mod placing;
mod repeats;
mod taking;
mod views;

pub use document::view;
pub use edit_delta::edit_with_delta;
pub use index::Index;
pub use laws::{same_documents_show_the_same, views_show_what_is_live};
pub use one_key::view_of_key;
pub use views::{Maps, Scalars, Sums, Values, View};
