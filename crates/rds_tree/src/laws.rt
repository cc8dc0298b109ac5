//! The laws of views.
ghost use Rattle.std.specs.Prelude.{◌≡◌, ◌↔◌, ◌++◌, ◌∷◌, [], ℕ, ℤ, List, None, Some, true};
ghost use Rattle.rds_names.specs.declared.entry.Kind.TheVariants.{Reg, Elem};
ghost use Rattle.rds_names.specs.declared.scalar.Scalar.{Scalar};
ghost use Rattle.rds_names.specs.Orders.{IsScalarOrder, scalar_cmp};
ghost use Rattle.rds_state.specs.Value.{StateValue};
ghost use Rattle.rds_tree.specs.Document.{document};
ghost use Rattle.rds_tree.specs.SameDocument.{AreSameDocument};
ghost use Rattle.rds_tree.specs.Shown.{Shown};
ghost use Rattle.rds_tree.specs.Shows.{counters_in, shows_value, HasSums, IsInOrder, IsLiveAt, IsLiveBelow, map_at};
ghost use Rattle.rds_tree.specs.Shows.{maps_in, regs_in, sets_in};
ghost use Rattle.rds_tree.specs.View.{view_of};

/// A view has a value of a register or of a set under a key exactly where one is live at the path that goes on by this
/// key alone. It has a map under a key exactly where something is live further below, and that map is the view there.
/// At the root alone it has counters: those of which some number is above 0, each with its sum. Keys and values ascend,
/// each once, and there is no key without values; keys are ordered by their bytes, and values so: null, false, true,
/// integers by size, texts by their bytes. The function does nothing: its contract is these laws.
pub fn views_show_what_is_live()
    ensures regs { (v : StateValue) (path : List (List ℕ)) (key : List ℕ) (value : Scalar)
        → (shows_value (regs_in (view_of (document v) path)) key value ≡ true)
        ↔ IsLiveAt v (path ++ key ∷ []) Reg value }
    ensures sets { (v : StateValue) (path : List (List ℕ)) (key : List ℕ) (value : Scalar)
        → (shows_value (sets_in (view_of (document v) path)) key value ≡ true)
        ↔ IsLiveAt v (path ++ key ∷ []) Elem value }
    ensures maps { (v : StateValue) (path : List (List ℕ)) (key : List ℕ) (shown : Shown)
        → (map_at (maps_in (view_of (document v) path)) key ≡ Some shown)
        ↔ (IsLiveBelow v (path ++ key ∷ []) × (shown ≡ view_of (document v) (path ++ key ∷ []))) }
    ensures root { (v : StateValue) → HasSums v (counters_in (view_of (document v) [])) }
    ensures below_root { (v : StateValue) (key : List ℕ) (path : List (List ℕ))
        → counters_in (view_of (document v) (key ∷ path)) ≡ None }
    ensures order { (v : StateValue) (path : List (List ℕ)) → IsInOrder (view_of (document v) path) }
    ensures scalars { IsScalarOrder scalar_cmp }
{}

/// States in which the same entries are live and the same keys are counted, with the same sums, show the same at every
/// path, whichever dots and replicas these come from. The function does nothing: its contract is this law.
pub fn same_documents_show_the_same()
    ensures { (v w : StateValue) → AreSameDocument v w → (path : List (List ℕ))
        → view_of (document v) path ≡ view_of (document w) path }
{}
