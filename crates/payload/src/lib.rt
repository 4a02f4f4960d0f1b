// A row's payload, on any table.
#![tactic(auto)]

mod part;

ghost use Rattle.std.specs.Prelude.{◌≡◌};
ghost use Rattle.payload.specs.Payload.{has_payload, payload_at, lies, part_in};

pub use part::Part;
use rows::Row;

#[tactic(auto, unfolding(crate::specs::Payload::has_payload))]
fn has_payload(kind: u32) -> bool
    ensures { result ≡ has_payload kind }
{
    matches!(kind, Row::FLOAT | Row::TEXT | Row::BINARY | Row::KEY)
}

// Where a row's payload lies in the data; the empty part at the front where it has none.
#[tactic(auto, unfolding(crate::specs::Payload::payload_at, crate::specs::Payload::has_payload, rows::specs::Table::row_or_zeros))]
pub fn payload_at(table: &[u32], row: usize, data: &[u8]) -> Part
    ensures { result ≡ payload_at table.now row «data».now }
{
    let w = rows::row_or_zeros(table, row);
    let place = rows::number(w.w0);
    let size = rows::number(w.w1);
    if has_payload(w.kind) && place + size <= data.len() {
        return Part { place, size };
    }
    Part::default()
}

// A row's payload, as that part of the lent data.
#[tactic(auto, using(crate::proofs::Parts::payload_inside))]
pub fn payload<'a>(table: &[u32], row: usize, data: &'a [u8]) -> &'a [u8]
    ensures { lies result ≡ part_in «data».entry (payload_at table.now row «data».now) }
{
    let Part { place, size } = payload_at(table, row, data);
    &data[place..place + size]
}
