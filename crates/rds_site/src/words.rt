//! What the command line says of a site.

/// What the command line says of a site that is to run.
#[derive(Clone, Copy)]
pub struct SiteWords<'a> {
    /// The path of the document's file.
    pub file: &'a str,
    /// The address and port at which it is served, as `127.0.0.1:7780`.
    pub http: &'a str,
    /// The path of a file that has the token that requests have to show.
    pub token_file: Option<&'a str>,
    /// Whether others than this machine may come without a token.
    pub is_open: bool,
    /// Whether each request is reported by a line on standard output.
    pub log: bool,
    /// The other nodes that it meets, each as `HOST:PORT`.
    pub peers: &'a [&'a str],
    /// After so many seconds it meets them again, where nothing changed. None is taken as one.
    pub every: u32,
}
