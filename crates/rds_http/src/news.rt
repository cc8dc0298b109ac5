//! What listeners are told of a turn.
ghost use Rattle.std.specs.Prelude.{◌≡◌, ℕ, List, Option, Some, IfOk, IfSome, option_map, string_bytes};
ghost use Rattle.std.specs.List.{join_with_byte};
ghost use Rattle.serde_json.specs.View.{view};
ghost use Rattle.rds_json.specs.Spelling.{path_data};
ghost use Rattle.rds_http.specs.News.{IsNews, news_json, paths_data, paths_json};
ghost use Rattle.rds_http.specs.Site.{after_news};

use crate::site::Site;
use crate::touched::Touched;
use rds_files::Disk;
use rds_names::{Fault, Key, Path};
use rds_state::Mark;
use serde_json::Value;
use std::alloc::Global;

/// A longer list of paths isn't reported.
const LONGEST: usize = 16_384;

impl<H: Disk> Site<'_, H> {
    /// What listeners are told after what had changed was kept, once: the turn, the mark of the document, and the paths
    /// at which it changed since they were told last. The paths are null where they are too many, or there was no
    /// memory to list them: then any may have changed. `None` too where nobody listens. So it is where there was no
    /// memory for the text; then the next news has null.
    pub fn news(&mut self) -> Option<String>
        ensures news { IfSome result (λ text. IsNews self.old (string_bytes text)) }
        ensures told { self.new ≡ after_news self.old }
    {
        if !self.has_news {
            return None;
        }
        self.has_news = false;
        let touched = self.held.file.take_touched();
        if self.metrics.listeners == 0 {
            return None;
        }
        let mark = self.held.file.document().mark();
        match news_json(self.alloc, self.turn, mark, &touched) {
            Ok(text) => Some(text),
            Err(_) => {
                self.held.file.forget_touched();
                None
            }
        }
    }
}

/// A turn, a mark and paths as JSON.
fn news_json(alloc: Global, turn: u64, mark: Mark, touched: &Touched) -> Result<String, Fault>
    ensures { IfOk result (λ text. (paths : Option (List (List (List ℕ))))
        × (string_bytes text ≡ news_json turn mark paths)) }
{
    let paths = touched_json(alloc, touched)?;
    let text = format!(in alloc; "{{\"turn\":{turn},\"mark\":\"{mark}\",\"paths\":{paths}}}")?;
    Ok(text)
}

/// What was touched as JSON, or null.
fn touched_json(alloc: Global, touched: &Touched) -> Result<String, Fault>
    ensures { IfOk result (λ text. (paths : Option (List (List (List ℕ)))) × (string_bytes text ≡ paths_json paths)) }
{
    if let Some(paths) = touched.paths() {
        if let Ok(text) = paths_json(alloc, paths) {
            if text.len() <= LONGEST {
                return Ok(text);
            }
        }
    }
    Ok(String::from_str(alloc, "null")?)
}

/// Paths as JSON.
fn paths_json(alloc: Global, paths: &[Path]) -> Result<String, Fault>
    ensures { IfOk result (λ text. string_bytes text ≡ paths_json (Some paths.now)) }
{
    let value = paths_value(alloc, paths)?;
    Ok(value.to_string(alloc)?)
}

fn paths_value(alloc: Global, paths: &[Path]) -> Result<Value, Fault>
    ensures { IfOk result (λ value. view value ≡ paths_data paths.now) }
{
    let mut items = Vec::new(alloc);
    for path in paths {
        items.push(path_value(alloc, path)?)?;
    }
    Ok(Value::Array(items))
}

fn path_value(alloc: Global, path: &Path) -> Result<Value, Fault>
    ensures { IfOk result (λ value. view value ≡ path_data path.now) }
{
    Ok(Value::String(path_text(alloc, path.keys())?))
}

/// Keys, with a slash between.
fn path_text(alloc: Global, keys: &[Key]) -> Result<String, Fault>
    ensures { IfOk result (λ text. string_bytes text ≡ join_with_byte 47 keys.now) }
{
    let Some((first, rest)) = keys.split_first() else {
        return Ok(String::new(alloc));
    };
    let mut text = String::from_str(alloc, first.as_str())?;
    for key in rest {
        text.push_str("/")?;
        text.push_str(key.as_str())?;
    }
    Ok(text)
}
