//! The parts of a batch, each of which is one request.
ghost use Rattle.std.specs.Prelude.{◌≡◌, ◌++◌, List, length, IfOk, OnOk};
ghost use Rattle.otel_sdk_base.specs.Export.{items_of};
ghost use Rattle.otel_otlp.specs.HttpPart.{PartOf, Halves, ArePartsOf};

use crate::groups::{Grouped, batch_text};
use otel_sdk_base::Accepted;
use otel_sdk_base::resource::Resource;
use std::alloc::{AllocError, Global};
use std::marker::Model;

/// The body of a request, and the items that it holds. The items exist only in contracts; at run
/// time they are counted.
pub struct Part<R> {
    body: Vec<u8>,
    count: u64,
    items: Accepted<R>,
    ghost counted: { count ≡ length (items_of items.batches) },
}

// Written out, so that a caller's proof has one call here, and not the drops of all parts.
impl<R> Drop for Part<R> {
    fn drop(self) {
        let Part {
            body: _,
            count: _,
            items: _,
        } = self;
    }
}

impl<R> Model for Part<R> {
    ghost use Rattle.otel_sdk_base.specs.Export.{items_of};
    ghost use Rattle.otel_otlp.specs.HttpPart.{PartOf};

    ghost Value = { PartOf R };

    ghost view = { λ p. record {
      body = p.body.items;
      items = items_of p.items.batches;
    } };
}

impl<R> Part<R> {
    /// Returns the part of these items.
    fn new(body: Vec<u8>, items: &[R]) -> Part<R>
        ensures { result ≡ record { body = body.items; items = items.now } }
    {
        Part {
            body,
            count: items.len() as u64,
            items: Accepted::new().and(items),
        }
    }

    /// Returns the body.
    pub(crate) fn body(&self) -> &[u8]
        ensures { result.now ≡ self.now.body }
    {
        self.body.as_slice()
    }

    /// Returns the number of its items.
    pub(crate) fn count(&self) -> u64
        ensures { result ≡ length self.now.items }
    {
        self.count
    }

    /// Returns the items.
    pub(crate) fn into_items(self) -> Accepted<R>
        ensures { items_of result.batches ≡ self.items }
    {
        let Part {
            body: _,
            count: _,
            items,
        } = self;
        items
    }
}

/// Adds the parts of the batch. It is halved for as long as its body is longer than `max_body`,
/// down to single items.
fn add_parts<R: Grouped>(
    parts: &mut Vec<Part<R>>,
    alloc: Global,
    resource: &Resource,
    batch: &[R],
    max_body: usize,
) -> Result<(), AllocError>
    ensures { OnOk result ((more : List (PartOf R))
        × Halves R.form resource.now max_body batch.now more
        × (parts.new.items ≡ parts.old.items ++ more)) }
{
    let text = batch_text(alloc, resource, batch)?;
    if text.len() <= max_body || batch.len() <= 1 {
        parts.push(Part::new(text.into_bytes(), batch))?;
        return Ok(());
    }
    drop(text);
    let (first, second) = batch.split_at(batch.len() / 2);
    add_parts(parts, alloc, resource, first, max_body)?;
    add_parts(parts, alloc, resource, second, max_body)
}

/// Returns the parts of the batch, whose bodies are at most `max_body` long unless they hold a
/// single item. An empty batch has none.
pub(crate) fn parts_of<R: Grouped>(
    alloc: Global,
    resource: &Resource,
    batch: &[R],
    max_body: usize,
) -> Result<Vec<Part<R>>, AllocError>
    ensures { IfOk result (λ parts.
        ArePartsOf R.form resource.now max_body batch.now parts.items) }
{
    let mut parts = Vec::new(alloc);
    if !batch.is_empty() {
        add_parts(&mut parts, alloc, resource, batch, max_body)?;
    }
    Ok(parts)
}
