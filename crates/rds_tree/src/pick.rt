//! Leaves that are picked at the end of a path.
ghost use Rattle.std.specs.Prelude.{◌≡◌, Bool, false};
ghost use Rattle.rds_tree.specs.Cuts.{covering, is_deep, is_leaf, IsLess};
ghost use Rattle.rds_tree.specs.declared.leaf.Leaf.{Leaf};

use crate::leaves::Leaves;
use rds_dots::Dot;
use rds_names::{Kind, Scalar};
use rds_state::Command;

/// A choice among the leaves at the end of a path.
pub trait Pick {
    /// Whether a leaf is picked.
    ghost picks: { Self → Leaf → Bool };

    /// Whether all leaves are, and all that stands further below too.
    ghost deep: { Self → Bool };

    /// Whether all leaves are, and all that stands further below too.
    fn goes_deep(&self) -> bool
        ensures { result ≡ deep self.now };

    /// Takes out the leaves that are picked, where not all are. Takes no memory.
    fn cut_from(&self, leaves: &mut Leaves)
        requires { deep self.now ≡ false }
        ensures { IsLess (picks self.now) leaves.old leaves.new };
}

/// What a command covers, but a dot that is to stay.
#[derive(Drop)]
pub struct Covering<'a> {
    pub command: &'a Command,
    pub but: Option<Dot>,
}

impl<'a> Pick for Covering<'a> {
    ghost picks = { λ p. covering p.command.now p.but };

    ghost deep = { λ p. is_deep p.command.now };

    fn goes_deep(&self) -> bool {
        is_deep(self.command)
    }

    fn cut_from(&self, leaves: &mut Leaves) {
        leaves.cut_covered(self.command, self.but);
    }
}

/// One leaf.
#[derive(Drop)]
pub struct OneLeaf<'a> {
    pub kind: Kind,
    pub value: &'a Scalar,
    pub dot: Dot,
}

impl<'a> Pick for OneLeaf<'a> {
    ghost picks = { λ p. is_leaf p.kind p.value.now p.dot };

    ghost deep = { λ p. false };

    fn goes_deep(&self) -> bool {
        false
    }

    fn cut_from(&self, leaves: &mut Leaves) {
        leaves.cut_leaf(self.kind, self.value, self.dot);
    }
}

/// Whether a command covers all that stands below its path.
pub fn is_deep(command: &Command) -> bool
    ensures { result ≡ is_deep command.now }
{
    match command {
        Command::Set(_, _) => false,
        Command::Add(_, _) => false,
        Command::Del(_, _) => false,
        Command::Clear(_) => true,
        Command::Inc(_, _) => false,
        Command::Dec(_, _) => false,
    }
}
