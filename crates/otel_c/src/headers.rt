//! The headers of a request.
ghost use Rattle.std.specs.Prelude.{◌≡◌, [], IfErr, OnOk, OnErr, Some};
ghost use Rattle.http_header.specs.HeaderMap.{append as appended};
ghost use Rattle.http_header.specs.Token.{lowercase};
ghost use Rattle.http_header.specs.FieldValue.{plain_value};
ghost use Rattle.otel_c.specs.Object.{headers_of};
ghost use Rattle.otel_c.specs.Headers.{Appends, AppendRefused, HeaderRefused};
ghost use Rattle.otel_c.specs.Headers.{GetsHeader, GetHeaderRefused, Removes};
ghost use Rattle.otel_c.specs.Status.{Refuses, IsOtherKind, IsOutOfMemory};

use crate::handle::Handle;
use crate::object::Object;
use crate::room::write_bytes;
use crate::status::{Status, code};
use http_header::{
    HeaderMap, HeaderMapError, HeaderName, HeaderNameError, HeaderValue, HeaderValueError,
};
use otel_http::HeaderInjector;
use std::alloc::Global;

fn new(alloc: Global, headers: &mut Handle) -> Result<(), Status>
    ensures empty { OnOk result (headers_of headers.new.object ≡ Some []) }
    ensures unchanged { OnErr result (headers.new.object ≡ headers.old.object) }
    ensures refused { IfErr result IsOutOfMemory }
{
    let injector = HeaderInjector::new(HeaderMap::new(alloc));
    headers.put(alloc, Box::new(alloc, Object::Headers(injector))?);
    Ok(())
}

fn append_to(
    alloc: Global,
    headers: &mut HeaderMap,
    name: &[u8],
    value: &[u8],
) -> Result<(), Status>
    ensures ok { OnOk result (headers.new
        ≡ appended headers.old (lowercase name.now) (plain_value value.now)) }
    ensures unchanged { OnErr result (headers.new ≡ headers.old) }
    ensures refused { IfErr result (HeaderRefused name.now value.now headers.old) }
{
    let name = match HeaderName::from_bytes(alloc, name) {
        Ok(name) => name,
        Err(HeaderNameError::Invalid) => return Err(Status::Key),
        Err(HeaderNameError::OutOfMemory) => return Err(Status::NoMemory),
    };
    let value = match HeaderValue::from_bytes(alloc, value) {
        Ok(value) => value,
        Err(HeaderValueError::Invalid) => return Err(Status::Value),
        Err(HeaderValueError::OutOfMemory) => return Err(Status::NoMemory),
    };
    match headers.append(name, value) {
        Ok(_) => Ok(()),
        Err(HeaderMapError::MaxSizeReached) => Err(Status::Refused),
        Err(HeaderMapError::OutOfMemory) => Err(Status::NoMemory),
    }
}

fn append_in(alloc: Global, object: &mut Object, name: &[u8], value: &[u8]) -> Result<(), Status>
    ensures appended { OnOk result (Appends name.now value.now
        (Some object.old) (Some object.new)) }
    ensures unchanged { OnErr result (object.new ≡ object.old) }
    ensures refused { IfErr result (AppendRefused name.now value.now (Some object.old)) }
{
    match object {
        Object::Headers(injector) => append_to(alloc, &mut injector.headers, name, value),
        _ => Err(Status::Invalid),
    }
}

fn append(alloc: Global, headers: &mut Handle, name: &[u8], value: &[u8]) -> Result<(), Status>
    ensures appended { OnOk result (Appends name.now value.now
        headers.old.object headers.new.object) }
    ensures unchanged { OnErr result (headers.new.object ≡ headers.old.object) }
    ensures refused { IfErr result (AppendRefused name.now value.now headers.old.object) }
{
    let mut object = headers.take(alloc)?;
    let outcome = append_in(alloc, &mut object, name, value);
    headers.put(alloc, object);
    outcome
}

/// Makes empty headers, and frees the object that the handle held.
#[unsafe(no_mangle)]
pub extern "C" fn otel_headers_new(alloc: Global, headers: &mut Handle) -> u32
    ensures empty { result ≡ 0 → headers_of headers.new.object ≡ Some [] }
    ensures unchanged { (result ≡ 0 → ⊥) → headers.new.object ≡ headers.old.object }
    ensures refused { (result ≡ 0 → ⊥) → Refuses IsOutOfMemory result }
{
    code(new(alloc, headers))
}

/// Adds a header.
#[unsafe(no_mangle)]
pub extern "C" fn otel_headers_append(
    alloc: Global,
    headers: &mut Handle,
    name: &[u8],
    value: &[u8],
) -> u32
    ensures appended { result ≡ 0
        → Appends name.now value.now headers.old.object headers.new.object }
    ensures unchanged { (result ≡ 0 → ⊥) → headers.new.object ≡ headers.old.object }
    ensures refused { (result ≡ 0 → ⊥)
        → Refuses (AppendRefused name.now value.now headers.old.object) result }
{
    code(append(alloc, headers, name, value))
}

fn get_in(object: &Object, name: &[u8], room: &mut [u8], written: &mut usize) -> Result<(), Status>
    ensures value { OnOk result (GetsHeader (Some object.now)
        name.now room.old room.new written.new) }
    ensures unchanged { OnErr result (room.new ≡ room.old) }
    ensures refused { IfErr result (λ status.
        GetHeaderRefused (Some object.now) name.now room.old written.new status) }
{
    let injector = object.headers()?;
    match injector.headers.get(name) {
        Some(value) => write_bytes(value.as_bytes(), room, written),
        None => Err(Status::Absent),
    }
}

fn get(
    alloc: Global,
    headers: &mut Handle,
    name: &[u8],
    room: &mut [u8],
    written: &mut usize,
) -> Result<(), Status>
    ensures value { OnOk result (GetsHeader headers.old.object
        name.now room.old room.new written.new) }
    ensures unchanged { OnErr result (room.new ≡ room.old) }
    ensures kept { headers.new.object ≡ headers.old.object }
    ensures refused { IfErr result (λ status.
        GetHeaderRefused headers.old.object name.now room.old written.new status) }
{
    let object = headers.take(alloc)?;
    let outcome = get_in(&object, name, room, written);
    headers.put(alloc, object);
    outcome
}

/// Writes the first value of the name.
#[unsafe(no_mangle)]
pub extern "C" fn otel_headers_get(
    alloc: Global,
    headers: &mut Handle,
    name: &[u8],
    room: &mut [u8],
    written: &mut usize,
) -> u32
    ensures value { result ≡ 0
        → GetsHeader headers.old.object name.now room.old room.new written.new }
    ensures unchanged { (result ≡ 0 → ⊥) → room.new ≡ room.old }
    ensures kept { headers.new.object ≡ headers.old.object }
    ensures refused { (result ≡ 0 → ⊥) → Refuses
        (GetHeaderRefused headers.old.object name.now room.old written.new) result }
{
    code(get(alloc, headers, name, room, written))
}

fn remove_in(object: &mut Object, name: &[u8]) -> Result<(), Status>
    ensures removed { OnOk result (Removes name.now (Some object.old) (Some object.new)) }
    ensures unchanged { OnErr result (object.new ≡ object.old) }
    ensures refused { IfErr result (λ status. IsOtherKind (headers_of (Some object.old)) status) }
{
    match object {
        Object::Headers(injector) => {
            drop(injector.headers.remove(name));
            Ok(())
        }
        _ => Err(Status::Invalid),
    }
}

fn remove(alloc: Global, headers: &mut Handle, name: &[u8]) -> Result<(), Status>
    ensures removed { OnOk result (Removes name.now headers.old.object headers.new.object) }
    ensures unchanged { OnErr result (headers.new.object ≡ headers.old.object) }
    ensures refused { IfErr result (λ status. IsOtherKind (headers_of headers.old.object) status) }
{
    let mut object = headers.take(alloc)?;
    let outcome = remove_in(&mut object, name);
    headers.put(alloc, object);
    outcome
}

/// Removes all values of the name.
#[unsafe(no_mangle)]
pub extern "C" fn otel_headers_remove(alloc: Global, headers: &mut Handle, name: &[u8]) -> u32
    ensures removed { result ≡ 0 → Removes name.now headers.old.object headers.new.object }
    ensures unchanged { (result ≡ 0 → ⊥) → headers.new.object ≡ headers.old.object }
    ensures refused { (result ≡ 0 → ⊥)
        → Refuses (λ status. IsOtherKind (headers_of headers.old.object) status) result }
{
    code(remove(alloc, headers, name))
}
