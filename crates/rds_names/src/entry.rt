//! What stands at a live dot.
ghost use Rattle.std.specs.Prelude.{◌≡◌, ◌≤◌, ◌↔◌, length, [], IsTrue, IfOk, IfErr, MatchResult};
ghost use Rattle.rds_names.specs.declared.fault.Fault.TheVariants.{Memory, BadPath};

use crate::fault::Fault;
use crate::path::Path;
use crate::scalar::Scalar;
use std::alloc::Global;

/// How an entry stands at its path.
#[derive(Clone, Copy, Debug, PartialEq, Eq, PartialOrd, Ord)]
pub enum Kind {
    /// A value of the multi-value register there.
    Reg,
    /// An element of the add-wins set there.
    Elem,
}

/// A value at a path of 1 to 8 keys.
#[derive(Debug, PartialEq, Eq)]
pub struct Entry {
    pub path: Path,
    pub kind: Kind,
    pub value: Scalar,
    pub ghost below_root: { 1 ≤ length path },
    pub ghost within: { length path ≤ 8 },
}

impl Drop for Entry {
    fn drop(self) {
        let Entry {
            path: _path,
            kind: _kind,
            value: _value,
        } = self;
    }
}

impl Entry {
    ghost use Rattle.rds_names.specs.Entry.{HasParts};

    /// The entry of these parts; at the root there is none (`BadPath`).
    pub fn new(path: Path, kind: Kind, value: Scalar) -> Result<Entry, Fault>
        ensures { MatchResult result (HasParts path kind value) (λ fault. (fault ≡ BadPath) × (path ≡ [])) }
    {
        if path.len() == 0 {
            return Err(Fault::BadPath);
        }
        Ok(Entry { path, kind, value })
    }

    /// Where the entry stands.
    pub fn path(&self) -> &Path
        ensures { result.now ≡ self.now.path }
    {
        &self.path
    }

    /// Whether it is a register's value or a set's element.
    pub fn kind(&self) -> Kind
        ensures { result ≡ self.now.kind }
    {
        self.kind
    }

    /// The value.
    pub fn value(&self) -> &Scalar
        ensures { result.now ≡ self.now.value }
    {
        &self.value
    }

    /// Whether the two are equal in each part.
    pub fn same(&self, other: &Entry) -> bool
        ensures { IsTrue result ↔ (self.now ≡ other.now) }
    {
        self.path == other.path && self.kind == other.kind && self.value.same(&other.value)
    }

    /// An equal entry, which shares the path and the text of the value.
    pub fn copy(&self, alloc: Global) -> Result<Entry, Fault>
        ensures ok { IfOk result (λ entry. entry ≡ self.now) }
        ensures memory { IfErr result (λ fault. fault ≡ Memory) }
    {
        Ok(Entry {
            path: self.path.copy(alloc)?,
            kind: self.kind,
            value: self.value.copy(alloc)?,
        })
    }
}
