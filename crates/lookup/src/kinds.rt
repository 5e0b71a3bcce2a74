// The lookup types of OpenType that the library has.
ghost use Rattle.std.specs.Prelude.{◌≡◌, MatchResult, None, Some};
ghost use Rattle.answers.specs.declared.Refusal.TheVariants.{Subtable};
ghost use Rattle.answers.specs.declared.WiderRefusal.TheVariants.{Shared};
ghost use Rattle.lookup.specs.Kinds.{good_for, kind_of};

use answers::{Refusal, WiderRefusal};
use cursive::cursive_pos::CursivePos;
use pair::pair_pos::PairPos;
use single::single_pos::SinglePos;
use targets::mark_pos::MarkPos;

#[derive(Clone, Copy, PartialEq, Eq)]
pub enum Kind {
    Single,
    Pair,
    Cursive,
    MarkBase,
    MarkLigature,
    MarkMark,
}

// No kind has the number.
#[derive(Clone, Copy, PartialEq, Eq)]
pub struct UnknownKind;

// Of a run that is refusal 6.
impl From<UnknownKind> for WiderRefusal {
    ghost from_gives = { λ _ w. w ≡ Shared Subtable };

    fn from(_: UnknownKind) -> WiderRefusal {
        Refusal::Subtable.into()
    }
}

// The kind of a lookup type, 1 to 6.
impl TryFrom<u32> for Kind {
    type Error = UnknownKind;

    ghost try_from_gives = { λ n r. MatchResult r (λ k. kind_of n ≡ Some k) (λ _. kind_of n ≡ None) };

    fn try_from(n: u32) -> Result<Self, UnknownKind> {
        match n {
            1 => Ok(Kind::Single),
            2 => Ok(Kind::Pair),
            3 => Ok(Kind::Cursive),
            4 => Ok(Kind::MarkBase),
            5 => Ok(Kind::MarkLigature),
            6 => Ok(Kind::MarkMark),
            _ => Err(UnknownKind),
        }
    }
}

impl Kind {
    // The check of a subtable of this kind.
    pub fn is_good(self, t: &[u8]) -> bool
        ensures { result ≡ good_for self t.now }
    {
        match self {
            Kind::Single => SinglePos::new(t).is_some(),
            Kind::Pair => PairPos::new(t).is_some(),
            Kind::Cursive => CursivePos::new(t).is_some(),
            Kind::MarkBase | Kind::MarkLigature | Kind::MarkMark => MarkPos::new(t).is_some(),
        }
    }
}
