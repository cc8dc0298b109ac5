//! What a request asks for, by its method and its path.
ghost use Rattle.std.specs.Prelude.{◌≡◌, ◌≤◌, length};
ghost use Rattle.std.specs.List.{prefix_len};
ghost use Rattle.rds_http.specs.Answers.{may_be_long, may_change};
ghost use Rattle.rds_http.specs.Routes.{
  asked_of,
  asked_with,
  is_own_change,
  is_in_name,
  is_put,
  is_reading,
  lone_named,
  look_named,
  place_of,
  placed_named,
  posted_named,
  resource_named,
  resource_of,
};

/// What may be looked at.
#[derive(Clone, Copy, Debug, PartialEq, Eq)]
pub enum Look {
    /// The page.
    Page,
    /// What the document shows at a place.
    View,
    /// The same, with each map below the place shown empty.
    Here,
    /// What stands at a place.
    Value,
    /// The registers below a place that have more than one value.
    Conflicts,
    /// Whose replica the document is, and how much there is of it.
    Status,
    /// What the site has counted.
    Metrics,
    /// What asks another replica for what the document lacks.
    Ask,
    /// The document's snapshot, which is a file of its replica.
    Snapshot,
}

/// What may be posted.
#[derive(Clone, Copy, Debug, PartialEq, Eq)]
pub enum Post {
    /// Lines that edit the document.
    Edits,
    /// A name that is new in the roster.
    Grow,
    /// A question that another replica asks.
    Answer,
    /// What answers a question of this replica's.
    Take,
    /// What answers a question that this replica asked, which has a tag.
    Push,
    /// The tag of such a question, as another replica asks it.
    Pull,
    /// The token.
    Login,
}

/// What may be changed where what stands at a place is as the request wants it.
#[derive(Clone, Copy, Debug, PartialEq, Eq)]
pub enum Change {
    /// The document, by lines that edit it.
    Edits,
    /// The register at the place.
    Set,
}

/// What a path names.
#[derive(Clone, Copy, Debug, PartialEq, Eq)]
pub enum Resource {
    /// Something to be looked at.
    Look(Look),
    /// Something that takes what is posted.
    Post(Post),
    /// Something that takes lines that edit the document, for a place.
    EditsAt,
    /// The turns, as they come.
    Live,
    /// Nothing.
    Unknown,
}

/// What a request asks for.
#[derive(Clone, Copy, Debug, PartialEq, Eq)]
pub enum Asked {
    /// To look at something.
    Look(Look),
    /// To take what it brings.
    Post(Post),
    /// To take what it brings for a place.
    Change(Change),
    /// To be told of each turn.
    Live,
    /// Something by a method that the resource doesn't have.
    NotAllowed(Resource),
    /// Something that isn't there.
    Unknown,
}

/// Where a request leads.
#[derive(Clone, Copy, Debug)]
pub struct Route<'a> {
    /// What it asks for.
    pub asked: Asked,
    /// The place that it names in the document, percent-encoded.
    pub place: &'a [u8],
}

/// Where a request of this method and this path leads.
pub fn route_of<'a>(method: &[u8], path: &'a [u8]) -> Route<'a>
    ensures asked { result.asked ≡ asked_of method.now path.now }
    ensures place { result.place.now ≡ place_of path.now }
{
    Route {
        asked: asked_with(method, resource_of(path)),
        place: place_of(path),
    }
}

/// Whether a request of this method and this path is to edit the document, or to put a name in its roster.
pub fn is_own_change(method: &[u8], path: &[u8]) -> bool
    ensures { result ≡ is_own_change (asked_of method.now path.now) }
{
    let route = route_of(method, path);
    matches!(
        route.asked,
        Asked::Post(Post::Edits | Post::Grow) | Asked::Change(_)
    )
}

/// Whether a request of this method and this path may change the document: it is to edit it or to put a name in its
/// roster, or it brings what another replica has.
pub fn may_change(method: &[u8], path: &[u8]) -> bool
    ensures { result ≡ may_change (asked_of method.now path.now) }
{
    let route = route_of(method, path);
    matches!(
        route.asked,
        Asked::Post(Post::Edits | Post::Grow | Post::Take | Post::Push) | Asked::Change(_)
    )
}

/// Whether what a request of this method and this path is answered may be long: it shows or brings as much as there is
/// in the document, and changes nothing.
pub fn may_be_long(method: &[u8], path: &[u8]) -> bool
    ensures { result ≡ may_be_long (asked_of method.now path.now) }
{
    match route_of(method, path).asked {
        Asked::Look(look) => matches!(
            look,
            Look::View | Look::Here | Look::Conflicts | Look::Snapshot
        ),
        Asked::Post(post) => matches!(post, Post::Answer | Post::Pull),
        _ => false,
    }
}

/// What is asked for by a method of a resource.
fn asked_with(method: &[u8], resource: Resource) -> Asked
    ensures { result ≡ asked_with method.now resource }
{
    match resource {
        Resource::Look(look) if is_reading(method) => Asked::Look(look),
        Resource::Look(look) if is_put(look) && method == b"PUT".as_slice() => {
            Asked::Change(Change::Set)
        }
        Resource::Post(post) if method == b"POST".as_slice() => Asked::Post(post),
        Resource::EditsAt if method == b"POST".as_slice() => Asked::Change(Change::Edits),
        Resource::Live if method == b"GET".as_slice() => Asked::Live,
        Resource::Unknown => Asked::Unknown,
        _ => Asked::NotAllowed(resource),
    }
}

/// Whether a method only reads what it names.
fn is_reading(method: &[u8]) -> bool
    ensures { result ≡ is_reading method.now }
{
    method == b"GET".as_slice() || method == b"HEAD".as_slice()
}

/// Whether what is shown may be put too.
pub fn is_put(look: Look) -> bool
    ensures { result ≡ is_put look }
{
    matches!(look, Look::Value)
}

/// What a path names.
fn resource_of(path: &[u8]) -> Resource
    ensures { result ≡ resource_of path.now }
{
    match path.split_first() {
        Some((b'/', rest)) => {
            let len = name_len(rest);
            resource_named(&rest[..len], len < rest.len())
        }
        _ => Resource::Unknown,
    }
}

/// The place in the document that a path names, percent-encoded. The root's is empty.
fn place_of(path: &[u8]) -> &[u8]
    ensures { result.now ≡ place_of path.now }
{
    match path.split_first() {
        Some((_, rest)) => {
            let len = name_len(rest);
            if len < rest.len() {
                &rest[len + 1..]
            } else {
                &[]
            }
        }
        None => &[],
    }
}

/// How many bytes stand before the first slash.
fn name_len(path: &[u8]) -> usize
    ensures value { result ≡ prefix_len is_in_name path.now }
    ensures within { result ≤ length path.now }
{
    path.iter().take_while(|b| **b != b'/').count()
}

/// The resource of this name, with a slash behind it or none.
fn resource_named(name: &[u8], has_place: bool) -> Resource
    ensures { result ≡ resource_named name.now has_place }
{
    match (look_named(name), has_place) {
        (Some(look), _) => Resource::Look(look),
        (None, true) => placed_named(name),
        (None, false) => lone_named(name),
    }
}

/// What of this name is shown of a place.
fn look_named(name: &[u8]) -> Option<Look>
    ensures { result ≡ look_named name.now }
{
    if name == b"doc".as_slice() {
        Some(Look::View)
    } else if name == b"here".as_slice() {
        Some(Look::Here)
    } else if name == b"value".as_slice() {
        Some(Look::Value)
    } else if name == b"conflicts".as_slice() {
        Some(Look::Conflicts)
    } else {
        None
    }
}

/// What has this name, and takes what is posted for a place.
fn placed_named(name: &[u8]) -> Resource
    ensures { result ≡ placed_named name.now }
{
    if name == b"edits".as_slice() {
        Resource::EditsAt
    } else {
        Resource::Unknown
    }
}

/// What has this name, and no places.
fn lone_named(name: &[u8]) -> Resource
    ensures { result ≡ lone_named name.now }
{
    if name == b"".as_slice() {
        Resource::Look(Look::Page)
    } else if name == b"status".as_slice() {
        Resource::Look(Look::Status)
    } else if name == b"metrics".as_slice() {
        Resource::Look(Look::Metrics)
    } else if name == b"ask".as_slice() {
        Resource::Look(Look::Ask)
    } else if name == b"snapshot".as_slice() {
        Resource::Look(Look::Snapshot)
    } else if name == b"live".as_slice() {
        Resource::Live
    } else {
        posted_named(name)
    }
}

/// What has this name, and takes what is posted.
fn posted_named(name: &[u8]) -> Resource
    ensures { result ≡ posted_named name.now }
{
    if name == b"edits".as_slice() {
        Resource::Post(Post::Edits)
    } else if name == b"grow".as_slice() {
        Resource::Post(Post::Grow)
    } else if name == b"answer".as_slice() {
        Resource::Post(Post::Answer)
    } else if name == b"take".as_slice() {
        Resource::Post(Post::Take)
    } else if name == b"push".as_slice() {
        Resource::Post(Post::Push)
    } else if name == b"pull".as_slice() {
        Resource::Post(Post::Pull)
    } else if name == b"login".as_slice() {
        Resource::Post(Post::Login)
    } else {
        Resource::Unknown
    }
}
