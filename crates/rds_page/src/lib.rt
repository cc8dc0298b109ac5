//! The page that a node serves: one file of HTML, with its style and its script.
#![tactic(auto)]

mod markup;
mod node;
mod panels;
mod rows;
mod style;

use markup::with_markup;
use node::with_node;
use panels::page;
use rows::with_rows;
use style::with_style;

/// The page: a document of HTML in UTF-8. It asks the node that served it for all that it shows, and nobody else.
pub const PAGE: &str = page!();

/// The page's `Content-Security-Policy`. It lets the page's own script and style in by their SHA-256, and no others.
pub const POLICY: &str = "default-src 'none'; connect-src 'self'; img-src data:; \
    script-src 'sha256-1qGNgHpCzZgjiXazss4Aqc3zY3rSipP+xQ5ibK9ihZE='; \
    style-src 'sha256-qufR6nFe+B7LoLFfKnt0rKbFlTOrU1Dryqi1dtajRcw='; \
    form-action 'none'; frame-ancestors 'none'; base-uri 'none'";
