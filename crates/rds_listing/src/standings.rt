//! The registers and sets of a view, one after the other.
ghost use Rattle.std.specs.Prelude.{◌≡◌, ◌++◌, ◌∷◌, [], IfErr, IfOk, OnOk};
ghost use Rattle.rds_listing.specs.Standings.{all_stand, past, standings, stands, up_to, values_stand};
ghost use Rattle.rds_names.specs.declared.entry.Kind.TheVariants.{Elem, Reg};
ghost use Rattle.rds_names.specs.declared.fault.Fault.TheVariants.{Memory};
ghost use Rattle.rds_tree.specs.Shown.{shown_view};

use rds_names::{Fault, Key, Kind, Scalar};
use rds_tree::{Scalars, View};
use std::alloc::Global;
use std::marker::Model;

/// A register or a set: its path from the root, and its values.
#[derive(Debug, Drop)]
pub struct Standing {
    pub path: Vec<Key>,
    pub kind: Kind,
    pub values: Vec<Scalar>,
}

impl Model for Standing {
    ghost use Rattle.rds_listing.specs.Standings.{StandingValue};

    ghost Value = { StandingValue };

    ghost view = { λ s. record { path = s.path.items; kind = s.kind; values = s.values.items } };
}

/// The registers and sets of a view at a path.
pub fn standings_of(alloc: Global, path: &[Key], shape: &View) -> Result<Vec<Standing>, Fault>
    ensures ok { IfOk result (λ all. all.items ≡ standings path.now (shown_view shape.now)) }
    ensures memory { IfErr result (λ fault. fault ≡ Memory) }
{
    let mut all = Vec::new(alloc);
    add_view(alloc, &mut all, path, shape)?;
    Ok(all)
}

// Adds those of a view, each map behind what stands under its key.
fn add_view(
    alloc: Global,
    all: &mut Vec<Standing>,
    above: &[Key],
    shape: &View,
) -> Result<(), Fault>
    ensures ok { OnOk result (all.new.items ≡ all.old.items ++ standings above.now (shown_view shape.now)) }
    ensures memory { IfErr result (λ fault. fault ≡ Memory) }
{
    let mut regs = shape.regs.rows();
    let mut sets = shape.sets.rows();
    let maps = shape.maps.rows();
    for row in maps {
        let (regs_here, later_regs) = split_past(regs, &row.0);
        let (sets_here, later_sets) = split_past(sets, &row.0);
        add_values(alloc, all, above, regs_here, sets_here)?;
        let path = path_below(alloc, above, &row.0)?;
        add_view(alloc, all, path.as_slice(), &row.1)?;
        regs = later_regs;
        sets = later_sets;
    }
    add_values(alloc, all, above, regs, sets)
}

// Adds registers and sets in the order of their keys.
fn add_values(
    alloc: Global,
    all: &mut Vec<Standing>,
    above: &[Key],
    regs: &[(Key, Scalars)],
    sets: &[(Key, Scalars)],
) -> Result<(), Fault>
    ensures ok { OnOk result (all.new.items ≡ all.old.items ++ values_stand above.now regs.now sets.now) }
    ensures memory { IfErr result (λ fault. fault ≡ Memory) }
{
    let mut rest = regs;
    for row in sets {
        let (here, later) = split_past(rest, &row.0);
        add_all(alloc, all, above, Kind::Reg, here)?;
        all.push(standing_under(alloc, above, Kind::Elem, row)?)?;
        rest = later;
    }
    add_all(alloc, all, above, Kind::Reg, rest)
}

// Adds rows of one kind.
fn add_all(
    alloc: Global,
    all: &mut Vec<Standing>,
    above: &[Key],
    kind: Kind,
    rows: &[(Key, Scalars)],
) -> Result<(), Fault>
    ensures ok { OnOk result (all.new.items ≡ all.old.items ++ all_stand above.now kind rows.now) }
    ensures memory { IfErr result (λ fault. fault ≡ Memory) }
{
    for row in rows {
        all.push(standing_under(alloc, above, kind, row)?)?;
    }
    Ok(())
}

// What stands under a key below a path.
fn standing_under(
    alloc: Global,
    above: &[Key],
    kind: Kind,
    row: &(Key, Scalars),
) -> Result<Standing, Fault>
    ensures ok { IfOk result (λ s. s ≡ stands above.now kind row.now) }
    ensures memory { IfErr result (λ fault. fault ≡ Memory) }
{
    Ok(Standing {
        path: path_below(alloc, above, &row.0)?,
        kind,
        values: copies(alloc, row.1.rows())?,
    })
}

/// The keys above a key, and that key.
pub fn path_below(alloc: Global, above: &[Key], key: &Key) -> Result<Vec<Key>, Fault>
    ensures ok { IfOk result (λ path. path.items ≡ above.now ++ key.now ∷ []) }
    ensures memory { IfErr result (λ fault. fault ≡ Memory) }
{
    let mut path = Vec::new(alloc);
    for each in above {
        path.push(each.copy(alloc)?)?;
    }
    path.push(key.copy(alloc)?)?;
    Ok(path)
}

fn copies(alloc: Global, values: &[Scalar]) -> Result<Vec<Scalar>, Fault>
    ensures ok { IfOk result (λ copies. copies.items ≡ values.now) }
    ensures memory { IfErr result (λ fault. fault ≡ Memory) }
{
    let mut copies = Vec::new(alloc);
    for value in values {
        copies.push(value.copy(alloc)?)?;
    }
    Ok(copies)
}

/// The rows before the first that is past a key, and those from that one on.
pub fn split_past<'a>(
    rows: &'a [(Key, Scalars)],
    key: &Key,
) -> (&'a [(Key, Scalars)], &'a [(Key, Scalars)])
    ensures here { result.0.now ≡ up_to key.now rows.now }
    ensures later { result.1.now ≡ past key.now rows.now }
{
    for (i, row) in rows.iter().enumerate() {
        if row.0.cmp(key).is_gt() {
            return (&rows[..i], &rows[i..]);
        }
    }
    (rows, &[])
}
