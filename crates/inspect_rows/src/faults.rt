ghost use Rattle.std.specs.Prelude.{◌≡◌, List as Items, ℕ, false, IfOk};
ghost use Rattle.mem_disk.specs.Stores.{store_is_out};

use crate::run::{Want, check_files};
use leaf_edges::MemSink;
use mem_disk::{MemDisk, MemFiles, NamedDisk};
use std::alloc::Global;
use std::test::Fail;

/// The first disk of shard 0, with one opening.
const DISK: &[u8] = b"LEAFJRN1\x01\x01\0\0\0\0\0\0\0\x01\x09\0\0\0\x01\x01\0\0\0\0\0\0\0\0";

/// A store of this disk, some of whose calls fail, and of no other.
fn store_of(alloc: Global, failing_of_disk: Vec<u64>, failing: Vec<u64>) -> Result<MemFiles, Fail>
    ensures { IfOk result (λ files. (name : Items ℕ) → store_is_out files name ≡ false) }
{
    let disk = MemDisk::new(alloc, DISK.to_vec(alloc)?, failing_of_disk);
    let mut disks = Vec::new(alloc);
    disks.push(NamedDisk::new(b"store/shard-0.a".to_vec(alloc)?, disk))?;
    Ok(MemFiles::new(alloc, disks, Vec::new(alloc), failing))
}

/// The length of the disk, its head, and the parts of its record.
#[test]
fn each_call_of_a_disk_may_fail(rt: HostRuntime) -> Result<(), Fail> {
    let want = Want {
        number: 5,
        out: b"",
        err: b"leafd: disk fault\n",
    };
    for call in 1..=6 {
        let alloc = rt.alloc();
        let mut files = store_of(alloc, vec![in alloc; call]?, Vec::new(alloc))?;
        let out = MemSink::new(Vec::new(alloc), Vec::new(alloc));
        check_files(&rt, alloc, &mut files, out, &want)?;
        assert_eq!(rt; files.disk_fault_count(), 1);
    }
    Ok(())
}

/// The first disk, its spare, and the first disk of the next shard.
#[test]
fn the_folder_may_fail(rt: HostRuntime) -> Result<(), Fail> {
    let want = Want {
        number: 3,
        out: b"",
        err: b"leafd: read fault\n",
    };
    for call in 1..=3 {
        let alloc = rt.alloc();
        let mut files = store_of(alloc, Vec::new(alloc), vec![in alloc; call]?)?;
        let out = MemSink::new(Vec::new(alloc), Vec::new(alloc));
        check_files(&rt, alloc, &mut files, out, &want)?;
        assert_eq!(rt; files.disk_fault_count(), 0);
    }
    Ok(())
}

#[test]
fn the_output_may_fail(rt: HostRuntime) -> Result<(), Fail> {
    let want = Want {
        number: 4,
        out: b"",
        err: b"leafd: write fault\n",
    };
    let alloc = rt.alloc();
    let mut files = store_of(alloc, Vec::new(alloc), Vec::new(alloc))?;
    let out = MemSink::new(Vec::new(alloc), vec![in alloc; 1]?);
    check_files(&rt, alloc, &mut files, out, &want)
}
