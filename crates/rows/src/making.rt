// A row of each kind. A leaf is told its own row; a holder is told its end, the row behind its children.
// Makers that differ in the kind alone stay: each is public by its name, and says what that kind's words mean.
ghost use Rattle.std.specs.Prelude.{◌≡◌, ◌≤◌, ◌<◌, leb};
ghost use Rattle.rows.specs.Table.{limit, row_of};
ghost use Rattle.rows.specs.Kinds.{kind_false, kind_true, kind_none, kind_small, kind_signed, kind_unsigned, kind_float, kind_text, kind_binary, kind_key, kind_array, kind_record, kind_map};
ghost use Rattle.rows.specs.Kinds.{own, constant_own, span_own, holder_own, char_own, reference_own, declaration_own, foreign_own, damaged_own, leaf_row};

use crate::row::Row;

impl Row {
    // Asked of the bytes of a document and of the rows of a table.
    pub fn within_limit(n: usize) -> bool
        ensures { result ≡ leb n limit }
    {
        n <= Row::LIMIT
    }

    // Any row with no child, by its kind.
    pub fn leaf(kind: u32, row: usize, w0: u32, w1: u32, w2: u32, w3: u32) -> Row
        requires { row < limit }
        ensures { result ≡ leaf_row (own kind w0 w1 w2 w3) row }
    {
        Row {
            kind,
            end: (row + 1) as u32,
            w0,
            w1,
            w2,
            w3,
        }
    }

    // Any row with children, by its kind.
    pub fn holder(kind: u32, end: usize, count: usize) -> Row
        requires { (end ≤ limit) × (count ≤ limit) }
        ensures { result ≡ row_of (holder_own kind count) end }
    {
        Row {
            kind,
            end: end as u32,
            w0: count as u32,
            w1: 0,
            w2: 0,
            w3: 0,
        }
    }

    // Any row with a payload, by its kind.
    pub fn span(kind: u32, row: usize, place: usize, size: usize) -> Row
        requires { (row < limit) × (place ≤ limit) × (size ≤ limit) }
        ensures { result ≡ leaf_row (span_own kind place size) row }
    {
        Row::leaf(kind, row, place as u32, size as u32, 0, 0)
    }

    // False; the word itself belongs to the language.
    pub fn no(row: usize) -> Row
        requires { row < limit }
        ensures { result ≡ leaf_row (constant_own kind_false) row }
    {
        Row::leaf(Row::FALSE, row, 0, 0, 0, 0)
    }

    // True, likewise.
    pub fn yes(row: usize) -> Row
        requires { row < limit }
        ensures { result ≡ leaf_row (constant_own kind_true) row }
    {
        Row::leaf(Row::TRUE, row, 0, 0, 0, 0)
    }

    // None.
    pub fn none(row: usize) -> Row
        requires { row < limit }
        ensures { result ≡ leaf_row (constant_own kind_none) row }
    {
        Row::leaf(Row::NONE, row, 0, 0, 0, 0)
    }

    // An integer in -31..64; the four words are its 128 bits, the low word first.
    pub fn small(row: usize, w0: u32, w1: u32, w2: u32, w3: u32) -> Row
        requires { row < limit }
        ensures { result ≡ leaf_row (own kind_small w0 w1 w2 w3) row }
    {
        Row::leaf(Row::SMALL, row, w0, w1, w2, w3)
    }

    // Any other integer of a signed form, in two's complement.
    pub fn signed(row: usize, w0: u32, w1: u32, w2: u32, w3: u32) -> Row
        requires { row < limit }
        ensures { result ≡ leaf_row (own kind_signed w0 w1 w2 w3) row }
    {
        Row::leaf(Row::SIGNED, row, w0, w1, w2, w3)
    }

    // Any other integer of an unsigned form.
    pub fn unsigned(row: usize, w0: u32, w1: u32, w2: u32, w3: u32) -> Row
        requires { row < limit }
        ensures { result ≡ leaf_row (own kind_unsigned w0 w1 w2 w3) row }
    {
        Row::leaf(Row::UNSIGNED, row, w0, w1, w2, w3)
    }

    // The bits of a float.
    pub fn float(row: usize, place: usize, size: usize) -> Row
        requires { (row < limit) × (place ≤ limit) × (size ≤ limit) }
        ensures { result ≡ leaf_row (span_own kind_float place size) row }
    {
        Row::span(Row::FLOAT, row, place, size)
    }

    // The bytes of a text.
    pub fn text(row: usize, place: usize, size: usize) -> Row
        requires { (row < limit) × (place ≤ limit) × (size ≤ limit) }
        ensures { result ≡ leaf_row (span_own kind_text place size) row }
    {
        Row::span(Row::TEXT, row, place, size)
    }

    // The bytes of a binary.
    pub fn binary(row: usize, place: usize, size: usize) -> Row
        requires { (row < limit) × (place ≤ limit) × (size ≤ limit) }
        ensures { result ≡ leaf_row (span_own kind_binary place size) row }
    {
        Row::span(Row::BINARY, row, place, size)
    }

    // The bytes of a record's key.
    pub fn key(row: usize, place: usize, size: usize) -> Row
        requires { (row < limit) × (place ≤ limit) × (size ≤ limit) }
        ensures { result ≡ leaf_row (span_own kind_key place size) row }
    {
        Row::span(Row::KEY, row, place, size)
    }

    // count elements.
    pub fn array(end: usize, count: usize) -> Row
        requires { (end ≤ limit) × (count ≤ limit) }
        ensures { result ≡ row_of (holder_own kind_array count) end }
    {
        Row::holder(Row::ARRAY, end, count)
    }

    // count entries, a key and a value each.
    pub fn record(end: usize, count: usize) -> Row
        requires { (end ≤ limit) × (count ≤ limit) }
        ensures { result ≡ row_of (holder_own kind_record count) end }
    {
        Row::holder(Row::RECORD, end, count)
    }

    // count entries, two values each.
    pub fn map(end: usize, count: usize) -> Row
        requires { (end ≤ limit) × (count ≤ limit) }
        ensures { result ≡ row_of (holder_own kind_map count) end }
    {
        Row::holder(Row::MAP, end, count)
    }

    // A codepoint.
    pub fn char(row: usize, codepoint: u32) -> Row
        requires { row < limit }
        ensures { result ≡ leaf_row (char_own codepoint) row }
    {
        Row::leaf(Row::CHAR, row, codepoint, 0, 0, 0)
    }

    // The number of an entry in force, and that entry's row.
    pub fn reference(row: usize, number: usize, entry: usize) -> Row
        requires { (row < limit) × (number ≤ limit) × (entry ≤ limit) }
        ensures { result ≡ leaf_row (reference_own number entry) row }
    {
        Row::leaf(Row::REFERENCE, row, number as u32, entry as u32, 0, 0)
    }

    // The entries are its children, and behind them its value.
    pub fn declaration(end: usize, entries: usize) -> Row
        requires { (end ≤ limit) × (entries ≤ limit) }
        ensures { result ≡ row_of (declaration_own entries) end }
    {
        Row::holder(Row::DECLARATION, end, entries)
    }

    // A right foreign document: its child is the document's value.
    pub fn foreign(end: usize) -> Row
        requires { end ≤ limit }
        ensures { result ≡ row_of foreign_own end }
    {
        Row::holder(Row::FOREIGN, end, 0)
    }

    // A damaged foreign document: its bytes, and the refusal that reading them gives.
    pub fn damaged(row: usize, place: usize, size: usize, verdict: u32) -> Row
        requires { (row < limit) × (place ≤ limit) × (size ≤ limit) }
        ensures { result ≡ leaf_row (damaged_own place size verdict) row }
    {
        Row::leaf(Row::FOREIGN, row, place as u32, size as u32, verdict, 0)
    }
}
