// Identifiers, request bytes, and the table holder. A refusal's zeros are written out, since they are what the paper says.
ghost use Rattle.std.specs.Prelude.{◌≡◌};
ghost use Rattle.bus_rules.specs.Ident.{pack_of, unpack_of};
ghost use Rattle.bus_rules.specs.Request.{read_request_of, request_bytes_of};
ghost use Rattle.bus_rules.specs.Device.{device, first_state_of};
ghost use Rattle.bus_rules.specs.Holder.{serve_of, device_after};
ghost use Rattle.honeygimlet.specs.Answers.{packed_out, unpacked_out};

use crate::{Packed, Unpacked};
use bus::Refusal;

impl From<Result<u32, Refusal>> for Packed {
    ghost from_gives = { λ r p. p ≡ packed_out r };

    fn from(r: Result<u32, Refusal>) -> Packed {
        match r {
            Ok(id) => Packed { id, number: 0 },
            Err(e) => Packed {
                id: 0,
                number: e.number(),
            },
        }
    }
}

impl From<Result<bus::Parts, Refusal>> for Unpacked {
    ghost from_gives = { λ r u. u ≡ unpacked_out r };

    fn from(r: Result<bus::Parts, Refusal>) -> Unpacked {
        match r {
            Ok(parts) => Unpacked { parts, number: 0 },
            Err(e) => Unpacked {
                parts: bus::Parts {
                    offset: 0,
                    kind: 0,
                    from: 0,
                    to: 0,
                    table: 0,
                },
                number: e.number(),
            },
        }
    }
}

#[unsafe(no_mangle)]
pub extern "C" fn hg_bus_pack(parts: bus::Parts) -> Packed
    ensures { result ≡ packed_out (pack_of parts) }
{
    bus::ident::pack(parts).into()
}

#[unsafe(no_mangle)]
pub extern "C" fn hg_bus_unpack(id: u32) -> Unpacked
    ensures { result ≡ unpacked_out (unpack_of id) }
{
    // Not by `into()`: through it the parts are put together twice, and the call takes 74 instructions in place of 39.
    Unpacked::from(bus::ident::unpack(id))
}

#[unsafe(no_mangle)]
pub extern "C" fn hg_bus_read_request(first: u8, second: u8, third: u8) -> bus::RequestRead
    ensures { result ≡ read_request_of first second third }
{
    bus::requests::read_request(first, second, third).into()
}

#[unsafe(no_mangle)]
pub extern "C" fn hg_bus_request_bytes(request: bus::Request) -> bus::RequestBytes
    ensures { result ≡ request_bytes_of request }
{
    bus::requests::request_bytes(request).into()
}

#[unsafe(no_mangle)]
pub extern "C" fn hg_bus_first_state(family: u8) -> bus::FirstState
    ensures { result ≡ first_state_of family }
{
    bus::holder::first_state(family).into()
}

#[unsafe(no_mangle)]
pub extern "C" fn hg_bus_serve(
    directory: bus::Directory,
    state: bus::HolderState,
    memory: &mut [u8],
    flash: &mut [u8],
    frame: bus::Frame,
) -> bus::HolderAnswer
    ensures { (result.served ≡ serve_of (device directory state memory.old flash.old) frame)
        × (result.state ≡ (device_after (device directory state memory.old flash.old) frame).state)
        × (memory.new ≡ (device_after (device directory state memory.old flash.old) frame).memory)
        × (flash.new ≡ (device_after (device directory state memory.old flash.old) frame).flash) }
{
    bus::holder::serve(directory, state, memory, flash, frame).into()
}
