//! The laws of the orders.
ghost use Rattle.std.specs.Prelude.{◌≡◌};
ghost use Rattle.std.specs.declared.cmp.Ordering.TheVariants.{Less, Equal};
ghost use Rattle.std.specs.Cmp.{IsTotalOrder};
ghost use Rattle.rds_names.specs.declared.entry.Kind.{Kind};
ghost use Rattle.rds_names.specs.declared.entry.Kind.TheVariants.{Reg, Elem};
ghost use Rattle.rds_names.specs.declared.scalar.Scalar.{Scalar};
ghost use Rattle.rds_names.specs.Orders.{IsScalarOrder, kind_cmp, scalar_cmp};

/// Scalars are ordered thus: null, false, true, integers by size, texts by their bytes; only equal ones tie. A value
/// of a register comes before an element of a set. The function does nothing: its contract is these laws.
pub fn orders_of_values()
    ensures scalars { IsScalarOrder scalar_cmp }
    ensures exact { (s t : Scalar) → scalar_cmp s t ≡ Equal → s ≡ t }
    ensures kinds { kind_cmp Reg Elem ≡ Less }
    ensures kinds_total { IsTotalOrder kind_cmp }
    ensures kinds_exact { (k l : Kind) → kind_cmp k l ≡ Equal → k ≡ l }
{}
