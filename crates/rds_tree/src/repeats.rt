//! Values in order, of which some repeat the one before.
ghost use Rattle.std.specs.Prelude.{◌≡◌};
ghost use Rattle.std.specs.Option.{option_copied};
ghost use Rattle.rds_tree.specs.Distinct.{is_last};

/// Whether the value is the last one.
pub fn is_last<T: Ord>(last: Option<&T>, value: &T) -> bool
    ensures { result ≡ is_last T.cmp (option_copied last.entry) value.now }
{
    match last {
        Some(last) => last.cmp(value).is_eq(),
        None => false,
    }
}
