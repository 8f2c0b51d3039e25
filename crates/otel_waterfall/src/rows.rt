//! The rows of a trace, in the order in which they are drawn.
ghost use Rattle.std.specs.Prelude.{◌≡◌, ◌==◌, ℕ, ◌++◌, false, length, map, reverse};
ghost use Rattle.std.specs.Prelude.{IfOk, OnOk, slice_get, slice_index_or, if◌then◌else◌};
ghost use Rattle.std.specs.BTreeMap.{get};
ghost use Rattle.std.specs.Option.{option_map_or, option_or};
ghost use Rattle.std.specs.Ordering.{nat_cmp};
ghost use Rattle.otel_waterfall.specs.Drawn.{look};
ghost use Rattle.otel_waterfall.specs.Rows as spec;
ghost use Rattle.otel_waterfall.specs.declared.rows.Parent.{Parent};
ghost use Rattle.otel_waterfall.specs.Rows.{AreDrawnOnce, DrawsOn, IsDrawn, parent_in, top_with};

use crate::span::Span;
use otel_ids::{SpanId, TraceId};
use std::alloc::{AllocError, Global};
use std::collections::BTreeMap;

/// A row below the first line of a trace.
#[derive(Clone, Copy, Debug)]
pub(crate) enum Row {
    /// A span of the batch.
    Span {
        /// The place of the span in the batch.
        place: usize,
        /// The number of rows above it in the tree.
        depth: usize,
        /// Whether a sibling follows it.
        follows: bool,
    },
    /// A parent that isn't in the batch.
    Absent {
        /// The place of its first child in the batch.
        child: usize,
    },
}

/// The parent of a span.
#[derive(Clone, Copy, Debug, PartialEq, Eq, PartialOrd, Ord, Drop)]
enum Parent {
    /// None: the span is a root.
    Root,
    /// The span at this place of the batch.
    At(usize),
    /// A span with this id that isn't in the batch.
    Absent(u64),
}

/// A span of the trace.
#[derive(Clone, Copy, Debug)]
struct Node {
    place: usize,
    parent: Parent,
}

/// A span that is waiting to be drawn.
#[derive(Clone, Copy, Debug)]
struct Waiting {
    place: usize,
    depth: usize,
    follows: bool,
}

/// Returns the id as a number, by which ids are ordered.
#[tactic(auto, using(crate::proofs::Draws::id_back))]
fn number_of(id: SpanId) -> u64
    ensures { result ≡ id }
{
    u64::from_be_bytes(id.to_bytes())
}

/// The spans of a trace, ordered by start and then by place, and the first place of each id.
#[derive(Drop)]
struct Starts {
    starts: Vec<(u64, usize)>,
    places: BTreeMap<u64, usize>,
}

/// Adds the place of a span with this id, unless the id has a place.
fn add_place(places: &mut BTreeMap<u64, usize>, id: u64, place: usize) -> Result<(), AllocError>
    ensures { OnOk result ((other : ℕ) → get nat_cmp places.new other
        ≡ option_or (get nat_cmp places.old other) (if id == other then Some place else None)) }
{
    places.entry(id)?.or_insert(place);
    Ok(())
}

/// Returns the spans of a trace.
fn starts_of(alloc: Global, batch: &[Span], trace: TraceId) -> Result<Starts, AllocError>
    ensures starts { IfOk result (λ spans.
        spans.starts.items ≡ spec.in_order (spec.starts_from trace 0 (map look batch.now))) }
    ensures places { IfOk result (λ spans. (id : ℕ) →
        get nat_cmp spans.places id ≡ spec.place_of trace (map look batch.now) id) }
{
    let mut starts = Vec::new(alloc);
    let mut places = BTreeMap::new(alloc);
    for (place, span) in batch.iter().enumerate() {
        if span.trace_id == trace {
            starts.push((span.start, place))?;
            add_place(&mut places, number_of(span.span_id), place)?;
        }
    }
    starts.sort()?;
    Ok(Starts { starts, places })
}

/// Returns the parent of a span: the first span with the parent's id.
fn parent_of(places: &BTreeMap<u64, usize>, span: &Span) -> Parent
    ensures { result ≡ parent_in (get nat_cmp places.now) span.now.parent_span_id }
{
    if span.parent_span_id == SpanId::INVALID {
        return Parent::Root;
    }
    let parent = number_of(span.parent_span_id);
    match places.get(&parent) {
        Some(place) => Parent::At(*place),
        None => Parent::Absent(parent),
    }
}

/// Returns the parent of the span at a place.
fn parent_at(places: &BTreeMap<u64, usize>, batch: &[Span], place: usize) -> Parent
    ensures { result ≡ option_map_or
        (λ span. parent_in (get nat_cmp places.now) span.parent_span_id)
        (slice_get batch.now place) Parent.Root }
{
    match batch.get(place) {
        Some(span) => parent_of(places, span),
        None => Parent::Root,
    }
}

/// Returns the spans of a trace with their parents, ordered by start and then by place.
fn nodes_of(alloc: Global, batch: &[Span], trace: TraceId) -> Result<Vec<Node>, AllocError>
    ensures { IfOk result (λ nodes. nodes.items ≡ spec.nodes_of trace (map look batch.now)) }
{
    let Starts { starts, places } = starts_of(alloc, batch, trace)?;
    let mut nodes = Vec::new(alloc);
    for (_, place) in &starts {
        nodes.push(Node {
            place: *place,
            parent: parent_at(&places, batch, *place),
        })?;
    }
    Ok(nodes)
}

/// Returns the nodes ordered by parent, and under each parent as before.
fn children_of(alloc: Global, nodes: &[Node]) -> Result<Vec<Node>, AllocError>
    ensures len { IfOk result (λ children. length children.items ≡ length nodes.now) }
    ensures sorted { IfOk result (λ children. spec.AreByParent children.items) }
    ensures same { IfOk result (λ children. (above : Parent) →
        spec.children_in children.items above ≡ spec.children_in nodes.now above) }
{
    let mut children = Vec::from_slice(alloc, nodes)?;
    children.sort_by_key(|node| node.parent)?;
    Ok(children)
}

/// The rows drawn so far, and for each place of the batch whether its span is still to be drawn.
#[derive(Debug, Drop)]
struct Drawing {
    pending: Vec<bool>,
    rows: Vec<Row>,
}

impl Drawing {
    /// Returns whether the span at this place is still to be drawn.
    fn is_pending(&self, place: usize) -> bool
        ensures { result ≡ slice_index_or self.now.pending.items place false }
    {
        place < self.pending.len() && self.pending[place]
    }

    /// Draws a row of an absent parent, or of a span that is still to be drawn.
    fn draw(&mut self, row: Row) -> Result<(), AllocError>
        ensures draws { OnOk result (DrawsOn self.old self.new) }
        ensures drawn { OnOk result (IsDrawn row self.new) }
        ensures progress { OnOk result
            (spec.progress self.new ≡ spec.draw row (spec.progress self.old)) }
    {
        match row {
            Row::Span {
                place,
                depth,
                follows,
            } => {
                if place < self.pending.len() && self.pending[place] {
                    self.rows.push(Row::Span {
                        place,
                        depth,
                        follows,
                    })?;
                    self.pending[place] = false;
                }
                Ok(())
            }
            Row::Absent { child } => {
                self.rows.push(Row::Absent { child })?;
                Ok(())
            }
        }
    }
}

/// Returns the nodes under a parent. `children` has all spans of the trace, ordered by parent.
fn children_under(children: &[Node], parent: Parent) -> &[Node]
    requires { spec.AreByParent children.now }
    ensures { result.now ≡ spec.children_in children.now parent }
{
    let end = children.partition_point(|node| node.parent <= parent);
    let up_to = &children[..end];
    let start = up_to.partition_point(|node| node.parent < parent);
    &up_to[start..]
}

/// Pushes the children of a parent that are still to be drawn, the first on top. `children` has all
/// spans of the trace, ordered by parent.
fn push_children(
    children: &[Node],
    drawing: &Drawing,
    waiting: &mut Vec<Waiting>,
    parent: Parent,
    depth: usize,
) -> Result<(), AllocError>
    requires { spec.AreByParent children.now }
    ensures { OnOk result (waiting.new.items ≡ waiting.old.items ++ reverse (spec.siblings depth
        (spec.undrawn (spec.progress drawing.now) (spec.children_in children.now parent)))) }
{
    let mut follows = false;
    let siblings = children_under(children, parent);
    for node in siblings.iter().rev() {
        if drawing.is_pending(node.place) {
            waiting.push(Waiting {
                place: node.place,
                depth,
                follows,
            })?;
            follows = true;
        }
    }
    Ok(())
}

/// Draws a row, and the spans under `parent`, each followed by the spans under it. `children` has
/// all spans of the trace, ordered by parent.
#[tactic(auto, using(crate::proofs::Draws::draws_more, crate::proofs::Draws::stays_drawn))]
fn draw_tree(
    alloc: Global,
    children: &[Node],
    drawing: &mut Drawing,
    top: Row,
    parent: Parent,
) -> Result<(), AllocError>
    requires { spec.AreByParent children.now }
    ensures draws { OnOk result (DrawsOn drawing.old drawing.new) }
    ensures drawn { OnOk result (IsDrawn top drawing.new) }
    ensures progress { OnOk result (spec.progress drawing.new ≡ spec.draw_tree
        (length children.now) (spec.children_in children.now) top parent
        (spec.progress drawing.old)) }
{
    drawing.draw(top)?;
    let mut waiting = Vec::new(alloc);
    push_children(children, drawing, &mut waiting, parent, 1)?;
    for _row in 0..children.len() {
        let Some(next) = waiting.pop() else {
            break;
        };
        drawing.draw(Row::Span {
            place: next.place,
            depth: next.depth,
            follows: next.follows,
        })?;
        push_children(
            children,
            drawing,
            &mut waiting,
            Parent::At(next.place),
            next.depth + 1,
        )?;
    }
    Ok(())
}

/// Returns the top row for a root or a child of an absent parent, and the parent of the spans under
/// that row.
fn top_of(node: Node) -> Option<(Row, Parent)>
    ensures { result ≡ top_with node.place node.parent }
{
    match node.parent {
        Parent::Root => {
            let row = Row::Span {
                place: node.place,
                depth: 0,
                follows: false,
            };
            Some((row, Parent::At(node.place)))
        }
        Parent::Absent(_) => Some((Row::Absent { child: node.place }, node.parent)),
        Parent::At(_) => None,
    }
}

/// Draws the tree of a node that is a root, or whose parent is absent, unless the node is drawn.
/// `children` has all spans of the trace, ordered by parent.
#[tactic(auto, using(crate::proofs::Draws::draws_nothing))]
fn draw_top(
    alloc: Global,
    children: &[Node],
    drawing: &mut Drawing,
    node: Node,
) -> Result<(), AllocError>
    requires { spec.AreByParent children.now }
    ensures draws { OnOk result (DrawsOn drawing.old drawing.new) }
    ensures progress { OnOk result (spec.progress drawing.new ≡ spec.draw_top
        (length children.now) (spec.children_in children.now) (spec.progress drawing.old) node) }
{
    if !drawing.is_pending(node.place) {
        return Ok(());
    }
    let Some((row, parent)) = top_of(node) else {
        return Ok(());
    };
    draw_tree(alloc, children, drawing, row, parent)
}

/// Draws the span at a place as a root, with its tree, unless it is drawn. `children` has all spans
/// of the trace, ordered by parent.
#[tactic(auto, using(crate::proofs::Draws::draws_nothing))]
fn draw_left(
    alloc: Global,
    children: &[Node],
    drawing: &mut Drawing,
    place: usize,
) -> Result<(), AllocError>
    requires { spec.AreByParent children.now }
    ensures draws { OnOk result (DrawsOn drawing.old drawing.new) }
    ensures drawn { OnOk result (slice_index_or drawing.new.pending.items place false ≡ false) }
    ensures progress { OnOk result (spec.progress drawing.new ≡ spec.draw_left
        (length children.now) (spec.children_in children.now) place (spec.progress drawing.old)) }
{
    if !drawing.is_pending(place) {
        return Ok(());
    }
    let row = Row::Span {
        place,
        depth: 0,
        follows: false,
    };
    draw_tree(alloc, children, drawing, row, Parent::At(place))
}

/// Returns, for each span of the batch, whether it belongs to the trace.
fn spans_of(alloc: Global, batch: &[Span], trace: TraceId) -> Result<Vec<bool>, AllocError>
    ensures { IfOk result (λ flags. flags.items ≡ map (λ span. span.trace_id == trace) batch.now) }
{
    batch
        .iter()
        .map(|span| span.trace_id == trace)
        .collect(alloc)
}

/// Returns the rows of a trace, from the top. Each span of the trace has one row, and no other span
/// has one. Siblings are ordered by start and then by place in the batch. Each is followed by the
/// spans under it. Spans whose parents form a cycle come last, as if they were roots. For n spans
/// of the batch, the time is in proportion to n log n.
///
/// # Errors
///
/// Returns an error if out of memory.
pub(crate) fn rows_of(alloc: Global, batch: &[Span], trace: TraceId) -> Result<Vec<Row>, AllocError>
    ensures once { IfOk result (λ rows.
        AreDrawnOnce (map (λ span. span.trace_id == trace) batch.now) rows.items) }
    ensures rows { IfOk result (λ rows. rows.items ≡ spec.rows_of trace (map look batch.now)) }
{
    let nodes = nodes_of(alloc, batch, trace)?;
    let children = children_of(alloc, nodes.as_slice())?;
    let mut drawing = Drawing {
        pending: spans_of(alloc, batch, trace)?,
        rows: Vec::new(alloc),
    };
    for node in &nodes {
        draw_top(alloc, children.as_slice(), &mut drawing, *node)?;
    }
    for place in 0..batch.len() {
        draw_left(alloc, children.as_slice(), &mut drawing, place)?;
    }
    Ok(drawing.rows)
}
