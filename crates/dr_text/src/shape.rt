//! Which records have which tag.
ghost use Rattle.std.specs.Prelude.{MatchOption};
ghost use Rattle.dr_text.specs.Shapes.{IsNoTag, IsShapeOf};

/// How the numbers and the name of a record follow one another.
#[derive(Clone, Copy, Debug, PartialEq, Eq)]
pub enum Shape {
    /// So many numbers.
    Plain(u64),
    /// So many numbers, a count, and as many further numbers as it says.
    Counted(u64),
    /// A length, a name of so many bytes, and one number.
    Named,
}

/// The shape of the records with this tag. None where no record has it.
pub fn shape_of(tag: u8) -> Option<Shape>
    ensures { MatchOption result (IsNoTag tag) (IsShapeOf tag) }
{
    match tag {
        0x01 | 0x02 => Some(Shape::Plain(0)),
        0x03 | 0x50 | 0x60 => Some(Shape::Plain(1)),
        0x04 | 0x05 | 0x06 | 0x10 | 0x20 | 0x23 | 0x24 => Some(Shape::Plain(2)),
        0x21 => Some(Shape::Plain(3)),
        0x22 | 0x25 | 0x26 | 0x27 | 0x30 => Some(Shape::Plain(4)),
        0x31 | 0x37 | 0x38 => Some(Shape::Plain(5)),
        0x32 | 0x33 | 0x34 | 0x35 => Some(Shape::Plain(6)),
        0x36 => Some(Shape::Plain(7)),
        0x07 => Some(Shape::Counted(1)),
        0x28 => Some(Shape::Counted(2)),
        0x39 | 0x3a => Some(Shape::Counted(5)),
        0x40 | 0x41 => Some(Shape::Named),
        _ => None,
    }
}
