// The row of a leaf.
ghost use Rattle.std.specs.Prelude.{◌≡◌, ◌<◌};
ghost use Rattle.wide.specs.Words.{value_of};
ghost use Rattle.rows.specs.Table.{limit};
ghost use Rattle.rows.specs.Kinds.{leaf_row};
ghost use Rattle.format.specs.Value.{integer_own, integer_kind, leaf_own};
ghost use Rattle.leaves.specs.Inner.{ContentInside};

use format::Content;
use rows::Row;
use wide::Wide;

// The kind that an integer's number and its marker's sign give.
pub fn integer_kind(w: Wide, signed: bool) -> u32
    ensures { result ≡ integer_kind signed (value_of w) }
{
    if wide::integer::is_small(w, signed) {
        return Row::SMALL;
    }
    if signed {
        return Row::SIGNED;
    }
    Row::UNSIGNED
}

// The row of a number in four words.
pub fn integer_row(kind: u32, row: usize, w: Wide) -> Row
    requires { row < limit }
    ensures { result ≡ leaf_row (integer_own kind w) row }
{
    Row::leaf(kind, row, w.w0, w.w1, w.w2, w.w3)
}

// Its words are put together here and in plain.rt: measuring needs none.
pub fn leaf_row(s: &[u8], row: usize, c: Content) -> Row
    requires { (row < limit) × ContentInside s.now c }
    ensures { result ≡ leaf_row (leaf_own s.now c) row }
{
    match c {
        Content::Constant { kind } => Row::leaf(kind, row, 0, 0, 0, 0),
        Content::Small { marker } => { integer_row(Row::SMALL, row, wide::integer::small(marker)) }
        Content::Integer {
            signed,
            place,
            size,
        } => {
            let w = wide::body::read_body(s, place, size, signed);
            integer_row(integer_kind(w, signed), row, w)
        }
        Content::Span { kind, place, size } => Row::span(kind, row, place, size),
        Content::Char { codepoint } => Row::char(row, codepoint),
    }
}
