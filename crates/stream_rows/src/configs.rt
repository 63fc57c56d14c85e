use crate::entries::full_of_one;
use nats_text::{List, TextFault};
use std::alloc::Global;
use std::test::Fail;
use stream_fold::{Config, ConfigFault};

/// Whether this is the first wrong member, or none is where it is empty.
pub fn is_wrong(alloc: Global, config: &Config, member: &[u8]) -> bool {
    match config.check(alloc) {
        Ok(()) => member.is_empty(),
        Err(ConfigFault::Bad { member: found }) => found.as_slice() == member,
        Err(ConfigFault::NoMemory) => false,
    }
}

// Each member that is made wrong stands before those that were.
#[test]
fn the_first_wrong_member_is_named(rt: HostRuntime) -> Result<(), Fail> {
    let members: [&[u8]; 5] = [
        b"",
        b"duplicate_window",
        b"max_msg_size",
        b"max_msgs",
        b"subjects",
    ];
    for (count, member) in members.iter().enumerate() {
        let config = with_wrong(rt.alloc(), count)?;
        assert!(rt; is_wrong(rt.alloc(), &config, member), "{member:?}");
    }
    Ok(())
}

/// A configuration with so many wrong members, the last ones.
fn with_wrong(alloc: Global, count: usize) -> Result<Config, TextFault> {
    let mut config = full_of_one(alloc)?;
    if count > 0 {
        config.window = 11;
    }
    if count > 1 {
        config.max_msg_size = 1 << 63;
    }
    if count > 2 {
        config.max_msgs = 1 << 63;
    }
    if count > 3 {
        config.subjects = List::new(alloc);
    }
    Ok(config)
}
