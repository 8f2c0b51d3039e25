//! Texts from C, and the caller's room for texts to C.
ghost use Rattle.std.specs.Prelude.{◌≡◌, ◌++◌, IfOk, IfErr, OnOk, OnErr, drop, length};
ghost use Rattle.std.specs.Option.{option_copied};
ghost use Rattle.otel_c.specs.Room.{HoldsFound, FoundRefused};
ghost use Rattle.otel_c.specs.Status.{IsNoText, HasNoRoom};

use crate::status::Status;
use std::str;

/// Returns the bytes as a text.
///
/// # Errors
///
/// `NotText` if they aren't UTF-8.
pub fn text_of(bytes: &[u8]) -> Result<&str, Status>
    ensures text { IfOk result (λ text. text.now ≡ bytes.now) }
    ensures refused { IfErr result (λ status. IsNoText bytes.now status) }
{
    match str::from_utf8(bytes) {
        Ok(text) => Ok(text),
        Err(_) => Err(Status::NotText),
    }
}

/// Writes the bytes to the front of the room, and their number to `written`.
///
/// # Errors
///
/// `NoRoom` if the room is too short. It is unchanged, and `written` is the required length.
pub fn write_bytes(bytes: &[u8], room: &mut [u8], written: &mut usize) -> Result<(), Status>
    ensures needed { written.new ≡ length bytes.now }
    ensures bytes { OnOk result (room.new ≡ bytes.now ++ drop (length bytes.now) room.old) }
    ensures unchanged { OnErr result (room.new ≡ room.old) }
    ensures refused { IfErr result (λ status. HasNoRoom bytes.now room.old status) }
{
    *written = bytes.len();
    if room.len() < bytes.len() {
        return Err(Status::NoRoom);
    }
    let (front, _) = room.split_at_mut(bytes.len());
    front.copy_from_slice(bytes);
    Ok(())
}

/// Writes the text to the front of the room, and its length to `written`.
///
/// # Errors
///
/// `NoRoom` if the room is shorter than the text. It is unchanged, and `written` is the required
/// length.
pub fn write(text: &str, room: &mut [u8], written: &mut usize) -> Result<(), Status>
    ensures needed { written.new ≡ length text.now }
    ensures text { OnOk result (room.new ≡ text.now ++ drop (length text.now) room.old) }
    ensures unchanged { OnErr result (room.new ≡ room.old) }
    ensures refused { IfErr result (λ status. HasNoRoom text.now room.old status) }
{
    write_bytes(text.as_bytes(), room, written)
}

/// Writes the text, if there is one, as [`write`] does.
///
/// # Errors
///
/// `Absent` if there is no text. `NoRoom` as for [`write`]. The room is unchanged.
pub fn write_found(found: Option<&str>, room: &mut [u8], written: &mut usize) -> Result<(), Status>
    ensures text { OnOk result (HoldsFound (option_copied found.entry)
        room.old room.new written.new) }
    ensures unchanged { OnErr result (room.new ≡ room.old) }
    ensures refused { IfErr result (λ status.
        FoundRefused (option_copied found.entry) room.old written.new status) }
{
    match found {
        Some(text) => write(text, room, written),
        None => Err(Status::Absent),
    }
}
