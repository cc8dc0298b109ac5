//! Whether what an edit says stands in a document already.
ghost use Rattle.std.specs.Prelude.{◌≡◌, ◌↔◌, ◌≤◌, IfErr, IfOk, IsTrue, length};
ghost use Rattle.std.specs.List.{Contains};
ghost use Rattle.rds_json.specs.Standing.{values_at};
ghost use Rattle.rds_listing.specs.Presence.{IsThere, StandsThere, StandsAt, values_of_kind};
ghost use Rattle.rds_names.specs.declared.entry.Kind.TheVariants.{Reg};
ghost use Rattle.rds_names.specs.declared.fault.Fault.TheVariants.{Memory};
ghost use Rattle.rds_tree.specs.Shown.{shown_view};

use rds_dots::DotSet;
use rds_json::values_at;
use rds_names::{Fault, Key, Kind, Path, Scalar};
use rds_state::{Command, State};
use rds_tree::{View, view};
use std::alloc::Global;

/// Whether what an edit says stands there already, so that making it would show nothing new: the register has the
/// value that is to be set and no other, or the set has the one that is to be added. No other edit says what stands.
pub fn stands<S: DotSet>(alloc: Global, state: &State<S>, command: &Command) -> Result<bool, Fault>
    ensures exact { IfOk result (λ b. IsTrue b ↔ StandsThere state.now command.now) }
    ensures memory { IfErr result (λ fault. fault ≡ Memory) }
{
    match command {
        Command::Set(path, value) => stands_at(alloc, state, Kind::Reg, path, value),
        Command::Add(path, value) => stands_at(alloc, state, Kind::Elem, path, value),
        _ => Ok(false),
    }
}

// Whether a value stands at a path.
fn stands_at<S: DotSet>(
    alloc: Global,
    state: &State<S>,
    kind: Kind,
    path: &Path,
    value: &Scalar,
) -> Result<bool, Fault>
    ensures exact { IfOk result (λ b. IsTrue b ↔ StandsAt state.now kind path.now value.now) }
    ensures memory { IfErr result (λ fault. fault ≡ Memory) }
{
    match path.keys().split_last() {
        Some((key, above)) => {
            let above = path_of(alloc, above)?;
            let shape = view(alloc, state, &above)?;
            Ok(is_in(&shape, kind, key, value))
        }
        None => Ok(false),
    }
}

// The path of these keys.
fn path_of(alloc: Global, keys: &[Key]) -> Result<Path, Fault>
    requires { length keys.now ≤ 8 }
    ensures ok { IfOk result (λ path. path ≡ keys.now) }
    ensures memory { IfErr result (λ fault. fault ≡ Memory) }
{
    let mut copies = Vec::new(alloc);
    for key in keys {
        copies.push(key.copy(alloc)?)?;
    }
    match Path::from_keys(copies) {
        Ok(path) => Ok(path),
        Err(_) => Err(Fault::Memory),
    }
}

// Whether a value stands at a key of a view.
fn is_in(shape: &View, kind: Kind, key: &Key, value: &Scalar) -> bool
    ensures { IsTrue result ↔ IsThere kind value.now (values_at key.now (values_of_kind kind (shown_view shape.now))) }
{
    match kind {
        Kind::Reg => is_alone(values_at(&shape.regs, key), value),
        Kind::Elem => is_among(values_at(&shape.sets, key), value),
    }
}

// Whether a value is there and no other.
fn is_alone(values: &[Scalar], value: &Scalar) -> bool
    ensures { IsTrue result ↔ IsThere Reg value.now values.now }
{
    match values {
        [only] => only.same(value),
        _ => false,
    }
}

// Whether a value is there.
fn is_among(values: &[Scalar], value: &Scalar) -> bool
    ensures { IsTrue result ↔ Contains values.now value.now }
{
    for each in values {
        if each.same(value) {
            return true;
        }
    }
    false
}
