ghost use Rattle.values.specs.Kinds.{Tells};

/// What a value is. The number of its kind is the first cell of a value.
#[derive(Clone, Copy, Debug, PartialEq, Eq)]
pub enum Kind {
    Number,
    Truth,
    Set,
    Sequence,
    Tuple,
}

/// No value has this first cell.
#[derive(Clone, Copy, Debug, PartialEq, Eq)]
pub struct NoKind;

impl TryFrom<i32> for Kind {
    type Error = NoKind;

    ghost try_from_gives = { Tells };

    fn try_from(cell: i32) -> Result<Kind, NoKind> {
        match cell {
            0 => Ok(Kind::Number),
            1 => Ok(Kind::Truth),
            2 => Ok(Kind::Set),
            3 => Ok(Kind::Sequence),
            4 => Ok(Kind::Tuple),
            _ => Err(NoKind),
        }
    }
}
