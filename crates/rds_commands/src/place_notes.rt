//! What is written on standard error of a path where nothing stands that was asked for: what stands there else.
use rds_dots::DotSet;
use rds_files::{Disk, ReplicaFile};
use rds_gaps::GapSet;
use rds_json::{counter_at, values_at};
use rds_lines::place_of;
use rds_listing::Raw;
use rds_names::{Fault, Path};
use rds_output::Reply;
use rds_state::State;
use rds_tree::view_of_key;
use std::alloc::Global;

/// What `get` prints where no value stands.
const NO_VALUE: &str = "{\"counter\":null,\"reg\":[],\"set\":[]}";

/// What stands at a path.
#[derive(Clone, Copy, Debug)]
struct Standing {
    has_value: bool,
    has_map: bool,
}

// What stands at the path of a text, but for the root's.
fn standing_at<S: DotSet>(alloc: Global, state: &State<S>, text: &str) -> Result<Standing, Fault> {
    let path = Path::new(alloc, text)?;
    let (above, key) = place_of(alloc, &path)?;
    let view = view_of_key(alloc, state, &above, &key)?;
    let has_value = !values_at(&view.regs, &key).is_empty()
        || !values_at(&view.sets, &key).is_empty()
        || counter_at(&view.counters, &key).is_some();
    Ok(Standing {
        has_value,
        has_map: !view.maps.rows().is_empty(),
    })
}

/// Tells that a map stands at the path of a text, where `get` answers that no value does.
pub fn note_no_value<H: Disk>(
    rt: &H,
    file: &ReplicaFile<'_, GapSet>,
    path: &str,
    text: &str,
    answer: &Reply,
) {
    if is_no_value(answer) {
        note_map(rt, file, path, text);
    }
}

/// The same where there are no bare values.
pub fn note_no_raw<H: Disk>(
    rt: &H,
    file: &ReplicaFile<'_, GapSet>,
    path: &str,
    text: &str,
    told: &Raw,
) {
    if let Raw::Nothing = told {
        note_map(rt, file, path, text);
    }
}

/// Tells that a value stands at the path of a text, where `show` answers that nothing stands below it.
pub fn note_no_map<H: Disk>(
    rt: &H,
    file: &ReplicaFile<'_, GapSet>,
    path: &str,
    text: &str,
    answer: &Reply,
) {
    if is_no_map(answer) {
        note_value(rt, file, path, text);
    }
}

// Whether an answer is what `get` prints where no value stands.
fn is_no_value(answer: &Reply) -> bool {
    match answer {
        Reply::Shown(shown) => shown.as_str() == NO_VALUE,
        _ => false,
    }
}

// Whether an answer is what `show` prints where nothing stands below a path: all that stands is in an array.
fn is_no_map(answer: &Reply) -> bool {
    match answer {
        Reply::Shown(shown) => !shown.as_str().contains('['),
        _ => false,
    }
}

// Tells that a map alone stands at the path of a text, where one does.
fn note_map<H: Disk>(rt: &H, file: &ReplicaFile<'_, GapSet>, path: &str, text: &str) {
    if let Ok(standing) = standing_at(rt.alloc(), file.kept().view_of().state(), text) {
        if standing.has_map && !standing.has_value {
            let _ = eprintln!(rt;
                "'{text}' is a map: 'rds_node show {path} {text}' has what is below"
            );
        }
    }
}

// Tells that a value stands at the path of a text, where one does.
fn note_value<H: Disk>(rt: &H, file: &ReplicaFile<'_, GapSet>, path: &str, text: &str) {
    if let Ok(standing) = standing_at(rt.alloc(), file.kept().view_of().state(), text) {
        if standing.has_value {
            let _ = eprintln!(rt; "'{text}' is no map: 'rds_node get {path} {text}' has its value");
        }
    }
}
