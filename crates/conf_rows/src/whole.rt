use leafd_conf::{Conf, read_conf};
use nats_text::Bytes;
use std::alloc::{AllocError, Global};
use std::test::Fail;

/// The lines of a file, and what it says: the three members that have to be there, the addresses for leaves
/// and of the hub with `-` for one that isn't there, and the two texts of each mapping.
const ROWS: [(&str, &str); 16] = [
    (
        "name = \"hub\"\nstore = \"/s\"\nlisten = \"127.0.0.1:4222\"\nleaf_listen = \"127.0.0.1:7422\"\n",
        "hub|/s|127.0.0.1:4222|127.0.0.1:7422|-|",
    ),
    // The members may come in any order, and a line may be no member.
    (
        "# A leaf.\nhub = 'hub:7422'\n\nlisten = 'a:1' # Any.\nstore = ''\nname = 'leaf-1_$'",
        "leaf-1_$||a:1|-|hub:7422|",
    ),
    (
        "name = 'a'\nstore = 's'\nlisten = 'a:1'\nhub = ''\nmappings = []",
        "a|s|a:1|-||",
    ),
    (
        "name = 'a'\nstore = 's'\nlisten = 'a:1'\nleaf_listen = ''",
        "a|s|a:1||-|",
    ),
    // Mappings in the order of the file, with the blanks of a destination.
    (
        "name = 'a'\nstore = 's'\nlisten = 'a:1'\nhub = 'h'\n[[mappings]]\nsrc = 'a.*'\ndest = 'b. $1'\n[[mappings]]\ndest = 'b'\nsrc = 'a'\n",
        "a|s|a:1|-|h|a.* to b. $1;a to b;",
    ),
    (
        "name = 'a'\nstore = 's'\nlisten = 'a:1'\nhub = 'h'\nmappings = [{ src = '>', dest = 'x.>' }]",
        "a|s|a:1|-|h|> to x.>;",
    ),
    // Names that are almost one that no node may have.
    (
        "name = 'api'\nstore = 's'\nlisten = 'a:1'\nhub = 'h'",
        "api|s|a:1|-|h|",
    ),
    (
        "name = 'APIS'\nstore = 's'\nlisten = 'a:1'\nhub = 'h'",
        "APIS|s|a:1|-|h|",
    ),
    (
        "name = 'F'\nstore = 's'\nlisten = 'a:1'\nhub = 'h'",
        "F|s|a:1|-|h|",
    ),
    // Addresses.
    (
        "name = 'a'\nstore = 's'\nlisten = 'a:0'\nhub = 'h'",
        "a|s|a:0|-|h|",
    ),
    (
        "name = 'a'\nstore = 's'\nlisten = 'a:65535'\nhub = 'h'",
        "a|s|a:65535|-|h|",
    ),
    (
        "name = 'a'\nstore = 's'\nlisten = '0.0.0.0:04222'\nhub = 'h'",
        "a|s|0.0.0.0:04222|-|h|",
    ),
    (
        "name = 'a'\nstore = 's'\nlisten = '[::1]:4222'\nhub = 'h'",
        "a|s|[::1]:4222|-|h|",
    ),
    (
        "name = 'a'\nstore = 's'\nlisten = '::4222'\nhub = 'h'",
        "a|s|::4222|-|h|",
    ),
    (
        "name = 'a'\nstore = 's'\nlisten = 'a:b:1'\nhub = 'h'",
        "a|s|a:b:1|-|h|",
    ),
    (
        "name = 'a'\nstore = 's'\nlisten = 'a: :1'\nhub = 'h'",
        "a|s|a: :1|-|h|",
    ),
];

/// What a configuration says.
fn told(alloc: Global, conf: &Conf) -> Result<Vec<u8>, AllocError> {
    let mut text = Vec::new(alloc);
    add(&mut text, conf.name.bytes(), b"|")?;
    add(&mut text, conf.store.as_slice(), b"|")?;
    add(&mut text, conf.listen.as_slice(), b"|")?;
    add(&mut text, text_or_dash(&conf.leaf_listen), b"|")?;
    add(&mut text, text_or_dash(&conf.hub), b"|")?;
    for mapping in conf.mappings.as_slice() {
        add(&mut text, mapping.src.as_slice(), b" to ")?;
        add(&mut text, mapping.dest.as_slice(), b";")?;
    }
    Ok(text)
}

fn text_or_dash(member: &Option<Bytes>) -> &[u8] {
    match member {
        Some(text) => text.as_slice(),
        None => b"-",
    }
}

fn add(text: &mut Vec<u8>, part: &[u8], end: &[u8]) -> Result<(), AllocError> {
    text.extend_from_slice(part)?;
    text.extend_from_slice(end)?;
    Ok(())
}

/// Whether a file says this.
fn says(alloc: Global, text: &[u8], want: &[u8]) -> Result<bool, AllocError> {
    match read_conf(alloc, text) {
        Ok(conf) => Ok(told(alloc, &conf)?.as_slice() == want),
        Err(_) => Ok(false),
    }
}

#[test]
fn a_configuration_says_its_members(rt: HostRuntime) -> Result<(), Fail> {
    for (text, want) in ROWS.iter() {
        assert!(rt;
            says(rt.alloc(), text.as_bytes(), want.as_bytes())?,
            "{text}"
        );
    }
    Ok(())
}
