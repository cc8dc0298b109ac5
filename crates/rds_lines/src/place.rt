//! A path as its last key and the keys above it.
ghost use Rattle.std.specs.Prelude.{◌≡◌, ◌⊎◌, ◌≤◌, ◌∷◌, ◌++◌, [], Err, IfErr, IfOk, length};
ghost use Rattle.rds_names.specs.declared.fault.Fault.TheVariants.{BadPath, Memory};

use rds_names::{Fault, Key, Path};
use std::alloc::Global;

/// The path of the keys above a path's last key, and that key. The root has none (`BadPath`).
pub fn place_of(alloc: Global, path: &Path) -> Result<(Path, Key), Fault>
    ensures place { IfOk result (λ place. path.now ≡ place.0 ++ place.1 ∷ []) }
    ensures root { path.now ≡ [] → result ≡ Err BadPath }
    ensures fault { IfErr result (λ fault. (fault ≡ Memory) ⊎ ((fault ≡ BadPath) × (path.now ≡ []))) }
{
    match path.keys().split_last() {
        Some((key, above)) => {
            let key = key.copy(alloc)?;
            Ok((path_of(alloc, above)?, key))
        }
        None => Err(Fault::BadPath),
    }
}

// The path of these keys.
fn path_of(alloc: Global, keys: &[Key]) -> Result<Path, Fault>
    requires { length keys.now ≤ 8 }
    ensures ok { IfOk result (λ path. path ≡ keys.now) }
    ensures memory { IfErr result (λ fault. fault ≡ Memory) }
{
    let mut copies = Vec::new(alloc);
    for key in keys {
        copies.push(key.copy(alloc)?)?;
    }
    match Path::from_keys(copies) {
        Ok(path) => Ok(path),
        Err(_) => Err(Fault::Memory),
    }
}
