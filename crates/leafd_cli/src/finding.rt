ghost use Rattle.std.specs.Prelude.{◌≡◌, MatchOption};
ghost use Rattle.std.specs.List.{position_from};
ghost use Rattle.std.specs.Option.{option_copied};
ghost use Rattle.leafd_cli.specs.Logs.{is_at, stream_at, has_node};
ghost use Rattle.leafd_cli.specs.Legal.{origin_among};

use crate::stream::{Stream, is_same};
use nats_text::{Name, Origin};

/// Whether a node of the name is there.
pub fn has_node(nodes: &[Name], node: &Name) -> bool
    ensures { result ≡ has_node node.now nodes.now }
{
    nodes.iter().any(|n| is_same(n.bytes(), node.bytes()))
}

/// The stream of a name on a node.
pub fn stream_at<'a>(streams: &'a [Stream], node: &Name, name: &Name) -> Option<&'a Stream>
    ensures { option_copied result ≡ stream_at node.now name.now streams.now }
{
    for stream in streams {
        if stream.is_at(node, name) {
            return Some(stream);
        }
    }
    None
}

/// The place of the stream of a name on a node.
pub fn position_of(streams: &[Stream], node: &Name, name: &Name) -> Option<usize>
    ensures { result ≡ position_from (is_at node.now name.now) 0 streams.now }
{
    streams.iter().position(|s| s.is_at(node, name))
}

/// The stream that an origin names.
pub fn origin_among<'a>(streams: &'a [Stream], want: &Origin) -> Option<&'a Stream>
    ensures { option_copied result ≡ origin_among want.now streams.now }
{
    match &want.node {
        None => None,
        Some(node) => stream_at(streams, node, &want.stream),
    }
}
