//! A law of reading in pieces.
ghost use Rattle.std.specs.Prelude.{ℕ, List, ◌++◌};
ghost use Rattle.std.specs.List.{concat};
ghost use Rattle.rds_feeds.specs.declared.unfinished.Progress.{Progress};
ghost use Rattle.rds_feeds.specs.Pieces.{ReadsOn, ReadsPieces, EndAlike};

use crate::unfinished::Unfinished;

/// Pieces that are read one after the other are read as all their bytes at once, wherever they were cut. What comes of
/// the same bytes is the same value, or nothing whole. The function does nothing: its contract is the law.
pub fn pieces_are_read_as_one<U: Unfinished>()
    ensures once { (u : U) (held : List ℕ) (pieces : List (List ℕ)) (p : Progress U U.Whole) (rest : List ℕ)
        → ReadsPieces U.finish u held pieces p rest
        → ReadsOn U.finish (λ more. U.finish u ((held ++ concat pieces) ++ more)) p rest }
    ensures alike { (u : U) (bytes : List ℕ) (p q : Progress U U.Whole) (rest other : List ℕ)
        → ReadsOn U.finish (λ more. U.finish u (bytes ++ more)) p rest
        → ReadsOn U.finish (λ more. U.finish u (bytes ++ more)) q other → EndAlike p rest q other }
{}
