//! Ids to and from hexadecimal digits.
ghost use Rattle.std.specs.Prelude.{◌≡◌, ◌*◌, length, IfErr, OnOk, OnErr, Ok};
ghost use Rattle.hex.specs.Hex.{decode_sized, encode_lower};
ghost use Rattle.otel_c.specs.Ids.{IsNoHex};
ghost use Rattle.otel_c.specs.Room.{Holds, IsLong};
ghost use Rattle.otel_c.specs.Status.{Refuses};

use crate::room::write_bytes;
use crate::status::{Status, code};
use hex::FromHex;

/// Reads the digits, of either case, two for each byte.
fn read<const N: usize>(digits: &[u8], id: &mut [u8; N]) -> Result<(), Status>
    ensures id { OnOk result (decode_sized digits.now N ≡ Ok id.new) }
    ensures unchanged { OnErr result (id.new ≡ id.old) }
    ensures refused { IfErr result (IsNoHex digits.now N) }
{
    match <[u8; N]>::from_hex(digits) {
        Ok(bytes) => {
            *id = bytes;
            Ok(())
        }
        Err(_) => Err(Status::Value),
    }
}

/// Writes the digits, in lower case. `digits` has one byte for each of them.
fn show(id: &[u8], digits: &mut [u8], room: &mut [u8], written: &mut usize) -> Result<(), Status>
    requires { length digits.now ≡ 2 * length id.now }
    ensures digits { OnOk result (Holds (encode_lower id.now) room.old room.new written.new) }
    ensures unchanged { OnErr result (room.new ≡ room.old) }
    ensures refused { IfErr result (IsLong (encode_lower id.now) room.old written.new) }
{
    match hex::encode_to_slice(id, &mut *digits) {
        Ok(()) => write_bytes(digits, room, written),
        Err(_) => Err(Status::NoRoom),
    }
}

/// Sets the id of a trace from 32 hexadecimal digits.
#[unsafe(no_mangle)]
pub extern "C" fn otel_trace_id_from_hex(digits: &[u8], id: &mut [u8; 16]) -> u32
    ensures id { result ≡ 0 → decode_sized digits.now 16 ≡ Ok id.new }
    ensures unchanged { (result ≡ 0 → ⊥) → id.new ≡ id.old }
    ensures refused { (result ≡ 0 → ⊥) → Refuses (IsNoHex digits.now 16) result }
{
    code(read(digits, id))
}

/// Sets the id of a span from 16 hexadecimal digits.
#[unsafe(no_mangle)]
pub extern "C" fn otel_span_id_from_hex(digits: &[u8], id: &mut [u8; 8]) -> u32
    ensures id { result ≡ 0 → decode_sized digits.now 8 ≡ Ok id.new }
    ensures unchanged { (result ≡ 0 → ⊥) → id.new ≡ id.old }
    ensures refused { (result ≡ 0 → ⊥) → Refuses (IsNoHex digits.now 8) result }
{
    code(read(digits, id))
}

/// Writes the id of a trace as 32 hexadecimal digits.
#[unsafe(no_mangle)]
pub extern "C" fn otel_trace_id_to_hex(id: &[u8; 16], room: &mut [u8], written: &mut usize) -> u32
    ensures digits { result ≡ 0 → Holds (encode_lower id.now) room.old room.new written.new }
    ensures unchanged { (result ≡ 0 → ⊥) → room.new ≡ room.old }
    ensures refused { (result ≡ 0 → ⊥)
        → Refuses (IsLong (encode_lower id.now) room.old written.new) result }
{
    code(show(id, &mut [0; 32], room, written))
}

/// Writes the id of a span as 16 hexadecimal digits.
#[unsafe(no_mangle)]
pub extern "C" fn otel_span_id_to_hex(id: &[u8; 8], room: &mut [u8], written: &mut usize) -> u32
    ensures digits { result ≡ 0 → Holds (encode_lower id.now) room.old room.new written.new }
    ensures unchanged { (result ≡ 0 → ⊥) → room.new ≡ room.old }
    ensures refused { (result ≡ 0 → ⊥)
        → Refuses (IsLong (encode_lower id.now) room.old written.new) result }
{
    code(show(id, &mut [0; 16], room, written))
}
