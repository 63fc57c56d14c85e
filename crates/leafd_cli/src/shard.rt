ghost use Rattle.std.specs.Prelude.{◌≡◌};
ghost use Rattle.leafd_cli.specs.Legal.{shard_of};

use nats_text::{Name, fnv1a};

/// The shard of a stream on its node, of eight, by the hash of its name.
pub fn shard_of(name: &Name) -> u32
    ensures { result ≡ shard_of name.now }
{
    fnv1a(name.bytes()) % 8
}
