// The three request bytes.
ghost use Rattle.std.specs.Prelude.{◌≡◌};
ghost use Rattle.wire.specs.Refusals.{number_of};
ghost use Rattle.bus_rules.specs.Request.{read_request_of, request_bytes_number, request_bytes_of, as_request_bytes};
ghost use Rattle.bus_rules.specs.Rows.{ReadAfterWrite, WriteAfterRead};
ghost use Rattle.bus.specs.Views.{as_request_read};

use crate::{Asked, Refusal, Request};

// The request in three bytes, whatever their reserved bits are, and whether these, the first byte's top three and bit 4 of the third, are clear.
pub fn read_request(a: u8, b: u8, c: u8) -> Asked
    ensures value { as_request_read result ≡ read_request_of a b c }
    ensures back { WriteAfterRead a b c (as_request_read result) }
{
    Asked {
        request: Request {
            table: a % 32,
            count: c % 16,
            offset: u16::from(b) * 8 + u16::from(c / 32),
        },
        clear: (a / 32 == 0) & (c / 16 % 2 == 0),
    }
}

// Requests that the bytes can't hold are refused.
#[tactic(auto, using(wire::proofs::Orders::order), unfolding(bus_rules::specs::Request::request_bytes_number))]
fn check_request(q: Request) -> Result<(), Refusal>
    ensures { number_of result ≡ request_bytes_number q }
{
    if 31 < q.table {
        return Err(Refusal::NoTable);
    }
    if 15 < q.count {
        return Err(Refusal::Count);
    }
    if 2047 < q.offset {
        return Err(Refusal::PastEnd);
    }
    Ok(())
}

// The bytes of a request that they can hold; else 7 (table), 9 (count) or 8 (offset).
pub fn request_bytes(q: Request) -> Result<[u8; 3], Refusal>
    ensures value { as_request_bytes result ≡ request_bytes_of q }
    ensures back { ReadAfterWrite q (as_request_bytes result) }
{
    check_request(q)?;
    let low = (q.offset % 8 * 32) as u8;
    Ok([q.table, (q.offset / 8) as u8, low + q.count])
}
