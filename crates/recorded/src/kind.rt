// Which call is recorded.
ghost use Rattle.recorded.specs.Kind.{IsNamedBy};

#[derive(Clone, Copy, PartialEq, Eq)]
pub enum Kind {
    Start,
    Finish,
    Single,
    Pair,
    Cursive,
    MarkBase,
    MarkLigature,
    MarkMark,
    ToClusters,
    FromClusters,
}

// A number that is no kind's.
#[derive(Clone, Copy, PartialEq, Eq)]
pub struct UnknownKind(pub u32);

impl TryFrom<u32> for Kind {
    type Error = UnknownKind;

    ghost try_from_gives = { IsNamedBy };

    fn try_from(number: u32) -> Result<Kind, UnknownKind> {
        match number {
            0 => Ok(Kind::Start),
            1 => Ok(Kind::Finish),
            2 => Ok(Kind::Single),
            3 => Ok(Kind::Pair),
            4 => Ok(Kind::Cursive),
            5 => Ok(Kind::MarkBase),
            6 => Ok(Kind::MarkLigature),
            7 => Ok(Kind::MarkMark),
            8 => Ok(Kind::ToClusters),
            9 => Ok(Kind::FromClusters),
            _ => Err(UnknownKind(number)),
        }
    }
}
