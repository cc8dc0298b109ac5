//! What is reported of a document.
ghost use Rattle.std.specs.Prelude.{◌≡◌, ◌⊎◌, ◌++◌, ◌∷◌, [], IfOk, IfErr, string_bytes};
ghost use Rattle.rds_json.specs.Standing.{standing_data};
ghost use Rattle.rds_lines.specs.Overview.{IsOverview};
ghost use Rattle.rds_listing.specs.Conflicts.{conflicts_text};
ghost use Rattle.rds_listing.specs.Dump.{dump_text};
ghost use Rattle.rds_names.specs.declared.fault.Fault.TheVariants.{Memory};
ghost use Rattle.rds_state.specs.Mark.{mark_of};
ghost use Rattle.rds_store.specs.Looks.{IsValueText, MayShowView, MayTell, RefusesPlace, here_text, text_at_path};
ghost use Rattle.rds_store.specs.Looks.{view_text};
ghost use Rattle.rds_tree.specs.Document.{document};
ghost use Rattle.rds_tree.specs.View.{view_of};
ghost use Rattle.serde_json.specs.Written.{compact_text};

use crate::document::Document;
use rds_json::{show, show_at};
use rds_lines::{overview_json, place_of};
use rds_listing::{conflicts_shown, dump_shown, dump_values};
use rds_names::{Fault, Key, Path};
use rds_state::Mark;
use rds_tree::View;

impl Document {
    /// What the document shows at a path, as `a/b/c`; the empty text is the root. A text that is no path is refused
    /// (`BadPath`, `BadKey`).
    pub fn view(&self, path: &str) -> Result<View, Fault>
        ensures { MayShowView self.now.state path.now result }
    {
        self.index.view(&Path::new(self.alloc, path)?)
    }

    /// The same as compact JSON, as [`show`] writes a view.
    pub fn view_json(&self, path: &str) -> Result<String, Fault>
        ensures { MayTell result (text_at_path view_text self.now.state path.now) }
    {
        let view = self.view(path)?;
        show(self.alloc, &view)
    }

    /// The same of what stands at the path itself: each map there shows nothing, and isn't looked at.
    pub fn here_json(&self, path: &str) -> Result<String, Fault>
        ensures { MayTell result (text_at_path here_text self.now.state path.now) }
    {
        let path = Path::new(self.alloc, path)?;
        let shown = self.index.view_here(&path)?;
        show(self.alloc, &shown)
    }

    /// What stands at a path, as compact JSON: the sum of its counter or null, the values of its register, and those of
    /// its set. The root is refused (`BadPath`), and a text that is no path (`BadPath`, `BadKey`).
    pub fn value_json(&self, path: &str) -> Result<String, Fault>
        ensures told { IfOk result (λ text. IsValueText self.now.state path.now (string_bytes text)) }
        ensures fault { IfErr result (λ fault. (fault ≡ Memory) ⊎ RefusesPlace path.now fault) }
    {
        let path = Path::new(self.alloc, path)?;
        let (above, key) = place_of(self.alloc, &path)?;
        self.standing(&above, &key)
    }

    /// What stands at a key below a path, as compact JSON.
    fn standing(&self, above: &Path, key: &Key) -> Result<String, Fault>
        ensures told { IfOk result (λ text. string_bytes text
            ≡ compact_text (standing_data key.now (view_of (document self.now.state) above.now))) }
        ensures memory { IfErr result (λ fault. fault ≡ Memory) }
    {
        let view = self.index.view_of_key(above, key)?;
        show_at(self.alloc, &view, key)
    }

    /// The registers below a path that have more than one value, each as a line of JSON with its path from the root and
    /// its values.
    pub fn conflicts(&self, path: &str) -> Result<String, Fault>
        ensures { MayTell result (text_at_path conflicts_text self.now.state path.now) }
    {
        let path = Path::new(self.alloc, path)?;
        conflicts_shown(self.alloc, &path, &self.index.view(&path)?)
    }

    /// The edits that make what the document has at a path and below it, each as a line that `edit_line` takes. There are
    /// counters among them where the path is the root.
    pub fn dump(&self, path: &str) -> Result<String, Fault>
        ensures { MayTell result (text_at_path dump_text self.now.state path.now) }
    {
        let path = Path::new(self.alloc, path)?;
        if path.is_empty() {
            return self.dump_all();
        }
        let (above, key) = place_of(self.alloc, &path)?;
        self.dump_part(&above, &key)
    }

    /// The edits that make the document.
    fn dump_all(&self) -> Result<String, Fault>
        ensures text { IfOk result (λ text. string_bytes text ≡ dump_text self.now.state []) }
        ensures memory { IfErr result (λ fault. fault ≡ Memory) }
    {
        let root = Path::new(self.alloc, "")?;
        dump_shown(self.alloc, &self.index.view(&root)?)
    }

    /// The edits that make what stands under a key of a path, and below it.
    fn dump_part(&self, above: &Path, key: &Key) -> Result<String, Fault>
        ensures text { IfOk result
            (λ text. string_bytes text ≡ dump_text self.now.state (above.now ++ key.now ∷ [])) }
        ensures memory { IfErr result (λ fault. fault ≡ Memory) }
    {
        let shape = self.index.view_of_key(above, key)?;
        let text = dump_values(self.alloc, above, &shape)?;
        Ok(text)
    }

    /// The mark by which replicas are compared at a glance: those that have the same updates have the same. It is kept
    /// up with each edit and each take, and takes no memory.
    pub fn mark(&self) -> Mark
        ensures { result ≡ mark_of self.now.state }
    {
        self.index.mark()
    }

    /// Whose replica this is and how much there is of it, as the JSON that `rds_node status` tells: group, own name and
    /// names; live entries, dead dots, counters, components, and the bytes of the snapshot.
    pub fn status(&self) -> Result<String, Fault>
        ensures told { IfOk result (λ text. IsOverview self.now (string_bytes text)) }
        ensures memory { IfErr result (λ fault. fault ≡ Memory) }
    {
        overview_json(self.alloc, self.index.replica(), self.index.mark())
    }
}
