use nats_text::{Name, NoMemory, Pattern, Subject, TextFault};
use std::alloc::Global;
use std::test::Fail;
use subject_transform::DomainMap;

fn hub(alloc: Global) -> Result<DomainMap, TextFault> {
    Ok(DomainMap::new(Name::read(alloc, b"hub")?))
}

/// Whether a subject that comes in to the domain `hub` becomes this.
fn becomes(alloc: Global, from: &str, to: &str) -> Result<bool, TextFault> {
    let subject = Subject::read(alloc, from.as_bytes())?;
    let inner = hub(alloc)?.inbound(alloc, &subject)?;
    Ok(inner.bytes() == to.as_bytes())
}

#[test]
fn the_own_domain_is_taken_away(rt: HostRuntime) -> Result<(), Fail> {
    for (from, to) in [
        ("$JS.hub.API.STREAM.NAMES", "$JS.API.STREAM.NAMES"),
        ("$JS.hub.API.x", "$JS.API.x"),
        ("$JS.hub.API", "$JS.hub.API"),
        ("$JS.other.API.x", "$JS.other.API.x"),
        ("$JS.hub2.API.x", "$JS.hub2.API.x"),
        ("$JS.API.x", "$JS.API.x"),
        ("a.$JS.hub.API.x", "a.$JS.hub.API.x"),
    ] {
        assert!(rt; becomes(rt.alloc(), from, to)?, "{from}");
    }
    Ok(())
}

/// Whether a pattern goes to other nodes.
fn crosses(alloc: Global, pattern: &str) -> Result<bool, TextFault> {
    let pattern = Pattern::read(alloc, pattern.as_bytes())?;
    Ok(hub(alloc)?.crosses(&pattern))
}

#[test]
fn the_own_interface_stays(rt: HostRuntime) -> Result<(), Fail> {
    for (pattern, want) in [
        ("$JS.API.>", false),
        ("$JS.API", false),
        ("$JS.API.STREAM.NAMES", false),
        ("$JS", true),
        ("$JS.>", true),
        ("$JS.hub.API.>", true),
        ("$JS.APIS.x", true),
        ("a.API.x", true),
        (">", true),
    ] {
        assert_eq!(rt; crosses(rt.alloc(), pattern)?, want, "{pattern}");
    }
    Ok(())
}
