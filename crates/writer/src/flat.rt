// Rows stand in document order, so each row's own bytes in turn are the document.
ghost use Rattle.std.specs.Prelude.{length};
ghost use Rattle.writer.specs.Inner.{RoomFor, FrontLaid};

use crate::sizes;

// The bytes of the first n rows at the front of the output.
pub fn write_rows(table: &[u32], n: usize, data: &[u8], out: &mut [u8])
    requires { RoomFor table.now «data».now n (length out.old) }
    ensures { FrontLaid table.now «data».now n out.old out.new }
{
    let mut at = 0;
    for row in 0..n {
        let w = rows::row_at(table, row);
        let size = sizes::told_size(table, row, w);
        at = spell::put_row(out, at, data, w, size);
    }
}
