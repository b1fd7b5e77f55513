//! Finds which streams the operators of a plan read.
ghost use Rattle.std.specs.Prelude.{◌≡◌, get_or, map, IfOk};
ghost use Rattle.plan.specs.Views.{node_of, nodes_of};
ghost use Rattle.query_runtime.specs.Turns.{source_among};

use plan::Node;
use std::alloc::{AllocError, Global};

/// Returns the number of the stream that each operator reads, by the operators' numbers. `streams`
/// has those of the sources' streams.
pub(crate) fn sources_of(
    alloc: Global,
    streams: &[u64],
    nodes: &[Node],
) -> Result<Vec<u64>, AllocError>
    ensures { IfOk result (λ sources. sources.items
        ≡ map (source_among streams.now) (nodes_of nodes.now)) }
{
    let mut sources = Vec::with_capacity(alloc, nodes.len())?;
    for node in nodes {
        sources.push(source_among(streams, node))?;
    }
    Ok(sources)
}

/// Returns the number of the stream that a window reads. Other operators read none; they get the
/// first one.
fn source_among(streams: &[u64], node: &Node) -> u64
    ensures { result ≡ source_among streams.now (node_of node.now) }
{
    match node {
        Node::Window(source) => stream_of(streams, *source),
        _ => stream_of(streams, 0),
    }
}

fn stream_of(streams: &[u64], source: usize) -> u64
    ensures { result ≡ get_or streams.now source 0 }
{
    match streams.get(source) {
        Some(stream) => *stream,
        None => 0,
    }
}
