use crate::run::{Want, check_files, put_file};
use leaf_edges::{DirFiles, Files, MemSink};
use mem_disk::MemFiles;
use std::fs::{File, Permissions};
use std::os::unix::fs::PermissionsExt;
use std::path::PathBuf;
use std::test::Fail;
use std::{env, fs, process};

/// The files of a store of eight shards, with streams of every option.
const FILES: [(&[u8], &[u8]); 9] = [
    (
        b"store/shard-0.a",
        b"LEAFJRN1\x01\x01\0\0\0\0\0\0\0\x01\t\0\0\0\x01\x01\0\0\0\0\0\0\0\x01J\0\0\0\x02\x05\0\0\0\0\0\0\0\x01\0\0\0A\x01\0\0\0\x01\0\0\0a\x02\0\0\0\0\0\0\0\0\0\0\0\0\0\0\0\0\0\0\0\0\0\0\0\0\0\0\0\0\0\0\0\0\0\0\0\0\0\0\0\0\0\xb0\x8e\xf0\x1b\0\0\0\0\0\x01%\0\0\0\x04\x01\0\0\0A\x01\0\0\0\0\0\0\0\x01\0\0\0\0\0\0\0\0\x01\0\0\0a\0\0\0\0\x01\0\0\01\x01%\0\0\0\x04\x01\0\0\0A\x02\0\0\0\0\0\0\0\x02\0\0\0\0\0\0\0\0\x01\0\0\0a\0\0\0\0\x01\0\0\02\x01%\0\0\0\x04\x01\0\0\0A\x03\0\0\0\0\0\0\0\x03\0\0\0\0\0\0\0\0\x01\0\0\0a\0\0\0\0\x01\0\0\03\0",
    ),
    (
        b"store/shard-1.a",
        b"LEAFJRN1\x01\x01\0\0\0\0\0\0\0\x01\t\0\0\0\x01\x01\0\0\0\0\0\0\0\x01L\0\0\0\x02\x05\0\0\0\0\0\0\0\x01\0\0\0B\x01\0\0\0\x03\0\0\0b.>\0\0\0\0\0\0\0\0\0\0\0\0\0\0\0\0\0\0\0\0\0\0\0\0\0\0\0\0\0\0\0\0\0\0\0\0\0\0\0\0\0\0\xb0\x8e\xf0\x1b\0\0\0\0\0\x01N\0\0\0\x04\x01\0\0\0B\x01\0\0\0\0\0\0\0\x07\0\0\0\0\0\0\0\0\x03\0\0\0b.x%\0\0\0NATS/1.0\r\nTill: 4\r\nNats-Msg-Id: a\r\n\r\n\x03\0\0\0one\x01&\0\0\0\x04\x01\0\0\0B\x02\0\0\0\0\0\0\0\x08\0\0\0\0\0\0\0\0\x03\0\0\0b.y\0\0\0\0\0\0\0\0\x01+\0\0\0\x04\x01\0\0\0B\x03\0\0\0\0\0\0\0\t\0\0\0\0\0\0\0\0\x03\0\0\0b.x\0\0\0\0\x05\0\0\0three\x01\x0e\0\0\0\x05\x01\0\0\0B\x02\0\0\0\0\0\0\0\x01\x15\0\0\0\x06\x01\0\0\0B\x03\0\0\0b.x\x03\0\0\0\0\0\0\0\0",
    ),
    (
        b"store/shard-2.a",
        b"LEAFJRN1\x01\x01\0\0\0\0\0\0\0\x01\t\0\0\0\x01\x01\0\0\0\0\0\0\0\x01O\0\0\0\x02\x05\0\0\0\0\0\0\0\x01\0\0\0C\x02\0\0\0\x01\0\0\0c\x01\0\0\0d\0\0\0\0\0\0\0\0\0\0\0\0\0\0\0\0\0\0\0\0\0\0\0\0\x01\0\0\0\0\0\0\0\0\0\0\0\0\0\0\0\0\0\xb0\x8e\xf0\x1b\0\0\0\0\0\x01%\0\0\0\x04\x01\0\0\0C\x01\0\0\0\0\0\0\0\x01\0\0\0\0\0\0\0\0\x01\0\0\0c\0\0\0\0\x01\0\0\01\x01%\0\0\0\x04\x01\0\0\0C\x02\0\0\0\0\0\0\0\x01\0\0\0\0\0\0\0\0\x01\0\0\0d\0\0\0\0\x01\0\0\02\x01J\0\0\0\x04\x01\0\0\0C\x05\0\0\0\0\0\0\0\x02\0\0\0\0\0\0\0\0\x01\0\0\0c%\0\0\0NATS/1.0\r\nTill: 4\r\nNats-Msg-Id: a\r\n\r\n\x01\0\0\05\x01\t\0\0\0\x01\x02\0\0\0\0\0\0\0\0",
    ),
    (
        b"store/shard-3.a",
        b"LEAFJRN1\x01\x01\0\0\0\0\0\0\0\x01\t\0\0\0\x01\x01\0\0\0\0\0\0\0\x01J\0\0\0\x02\x05\0\0\0\0\0\0\0\x01\0\0\0D\x01\0\0\0\x01\0\0\0d\0\0\0\0\0\0\0\0\0\0\0\0\0\0\0\0\n\0\0\0\0\0\0\0\0\0\0\0\0\0\0\0\0\0\0\0\0\0\0\0\0\n\0\0\0\0\0\0\0\0\0\x01%\0\0\0\x04\x01\0\0\0D\x01\0\0\0\0\0\0\0\x01\0\0\0\0\0\0\0\0\x01\0\0\0d\0\0\0\0\x01\0\0\01\x01\x0e\0\0\0\x07\x01\0\0\0D\x0b\0\0\0\0\0\0\0\0",
    ),
    (
        b"store/shard-4.a",
        b"LEAFJRN1\x01\x01\0\0\0\0\0\0\0\x01\t\0\0\0\x01\x01\0\0\0\0\0\0\0\x01J\0\0\0\x02\x05\0\0\0\0\0\0\0\x01\0\0\0E\x01\0\0\0\x01\0\0\0e\0\0\0\0\0\0\0\0d\0\0\0\0\0\0\0\0\0\0\0\0\0\0\0\0\0\0\0\0\0\0\0\0\0\0\0\0\0\0\0\0\0\xb0\x8e\xf0\x1b\0\0\0\0\0\x01'\0\0\0\x04\x01\0\0\0E\x01\0\0\0\0\0\0\0\x01\0\0\0\0\0\0\0\0\x01\0\0\0e\0\0\0\0\x03\0\0\0123\x01'\0\0\0\x04\x01\0\0\0E\x02\0\0\0\0\0\0\0\x02\0\0\0\0\0\0\0\0\x01\0\0\0e\0\0\0\0\x03\0\0\0456\x01G\0\0\0\t\x01\0\0\0E\x01\0\0\0E\x01\0\0\0\x01\0\0\0e\0\0\0\0\0\0\0\0\x04\0\0\0\0\0\0\0\0\0\0\0\0\0\0\0\0\0\0\0\0\0\0\0\0\0\0\0\0\0\0\0\0\0\xb0\x8e\xf0\x1b\0\0\0\0\0\0",
    ),
    (
        b"store/shard-5.a",
        b"LEAFJRN1\x01\x01\0\0\0\0\0\0\0\x01\t\0\0\0\x01\x01\0\0\0\0\0\0\0\x01`\0\0\0\x02\x05\0\0\0\0\0\0\0\x01\0\0\0M\0\0\0\0\0\0\0\0\0\0\0\0\0\0\0\0\0\0\0\0\0\0\0\0\0\0\0\0\0\0\0\0\0\0\0\0\0\0\0\0\0\0\0\0\0\0\xb0\x8e\xf0\x1b\0\0\0\0\x01\x01\x03\0\0\0hub\x01\0\0\0A\0\x01\0\0\0\0\0\0\0\0\0\0\0\0\x01\x1a\0\0\0\x08\x01\0\0\0M\0\0\0\0\x01\0\0\0\0\0\0\0\x01\0\0\0\0\0\0\0\x011\0\0\0\x04\x01\0\0\0M\x04\0\0\0\0\0\0\0\x06\0\0\0\0\0\0\0\x01\0\0\0\0\x04\0\0\0\0\0\0\0\x01\0\0\0a\0\0\0\0\x01\0\0\0x\x01\x88\0\0\0\x02\x06\0\0\0\0\0\0\0\x03\0\0\0ALL\0\0\0\0\0\0\0\0\0\0\0\0\0\0\0\0\0\0\0\0\0\0\0\0\0\0\0\0\0\0\0\0\0\0\0\0\0\0\0\0\0\0\0\0\0\0\xb0\x8e\xf0\x1b\0\0\0\0\x02\x02\0\0\0\x01\x03\0\0\0hub\x01\0\0\0A\0\x01\0\0\0\0\0\0\0\0\0\0\0\0\x01\x03\0\0\0hub\x01\0\0\0B\0\x01\0\0\0\0\0\0\0\x01\x03\0\0\0b.x\0\0\0\0\x01\x1c\0\0\0\x08\x03\0\0\0ALL\x01\0\0\0\x01\0\0\0\0\0\0\0\x01\0\0\0\0\0\0\0\x015\0\0\0\x04\x03\0\0\0ALL\x01\0\0\0\0\0\0\0\t\0\0\0\0\0\0\0\x01\x01\0\0\0\x03\0\0\0\0\0\0\0\x03\0\0\0b.x\0\0\0\0\x01\0\0\0y\0",
    ),
    (
        b"store/shard-6.a",
        b"LEAFJRN1\x01\x01\0\0\0\0\0\0\0\x01\t\0\0\0\x01\x01\0\0\0\0\0\0\0\x01J\0\0\0\x02\x01\0\0\0\0\0\0\0\x01\0\0\0F\x01\0\0\0\x01\0\0\0f\0\0\0\0\0\0\0\0\0\0\0\0\0\0\0\0\0\0\0\0\0\0\0\0\0\0\0\0\0\0\0\0\0\0\0\0\0\0\0\0\0\0\xb0\x8e\xf0\x1b\0\0\0\0\0\x01'\0\0\0\x04\x01\0\0\0F\x01\0\0\0\0\0\0\0\x01\0\0\0\0\0\0\0\0\x01\0\0\0f\0\0\0\0\x03\0\0\0old\x01J\0\0\0\x02\x02\0\0\0\0\0\0\0\x01\0\0\0G\x01\0\0\0\x01\0\0\0g\0\0\0\0\0\0\0\0\0\0\0\0\0\0\0\0\0\0\0\0\0\0\0\0\0\0\0\0\0\0\0\0\0\0\0\0\0\0\0\0\0\0\xb0\x8e\xf0\x1b\0\0\0\0\0\x01\x06\0\0\0\x03\x01\0\0\0F\x01\x06\0\0\0\x03\x01\0\0\0G\x01\t\0\0\0\x01\x02\0\0\0\0\0\0\0\x01J\0\0\0\x02\t\0\0\0\0\0\0\0\x01\0\0\0F\x01\0\0\0\x01\0\0\0f\0\0\0\0\0\0\0\0\0\0\0\0\0\0\0\0\0\0\0\0\0\0\0\0\0\0\0\0\0\0\0\0\t\0\0\0\0\0\0\0\x01\0\xb0\x8e\xf0\x1b\0\0\0\0\0\x01'\0\0\0\x04\x01\0\0\0F\x01\0\0\0\0\0\0\0\t\0\0\0\0\0\0\0\0\x01\0\0\0f\0\0\0\0\x03\0\0\0new\0",
    ),
    (
        b"store/shard-7.a",
        b"LEAFJRN1\x01\x01\0\0\0\0\0\0\0\x01\t\0\0\0\x01\x01\0\0\0\0\0\0\0\0",
    ),
    (
        b"store/shard-7.b",
        b"LEAFJRN1\x01\x02\0\0\0\0\0\0\0\x01\t\0\0\0\x01\x01\0\0\0\0\0\0\0\x01J\0\0\0\x02\x01\0\0\0\0\0\0\0\x01\0\0\0H\x01\0\0\0\x01\0\0\0h\0\0\0\0\0\0\0\0\0\0\0\0\0\0\0\0\0\0\0\0\0\0\0\0\0\0\0\0\0\0\0\0\0\0\0\0\0\0\0\0\0\0\xb0\x8e\xf0\x1b\0\0\0\0\0\0",
    ),
];

/// What is printed of it.
const REPORT: &[u8] = b"\
    shard 0 boot 1 streams 1\n\
    stream 0 A first 2 last 3 kept 2\n\
    2 2 a 32\n\
    3 3 a 33\n\
    shard 1 boot 1 streams 1\n\
    stream 1 B first 3 last 3 kept 1\n\
    3 9 b.x 7468726565\n\
    shard 2 boot 2 streams 1\n\
    stream 2 C first 2 last 5 kept 2\n\
    2 1 d 32\n\
    5 2 c 35\n\
    \x20\x20Till: 4\n\
    \x20\x20Nats-Msg-Id: a\n\
    shard 3 boot 1 streams 1\n\
    stream 3 D first 2 last 1 kept 0\n\
    shard 4 boot 1 streams 1\n\
    stream 4 E first 2 last 2 kept 1\n\
    2 2 e 343536\n\
    shard 5 boot 1 streams 2\n\
    stream 5 ALL first 1 last 1 kept 1\n\
    1 9 b.x 79\n\
    stream 5 M first 4 last 4 kept 1\n\
    4 6 a 78\n\
    shard 6 boot 2 streams 1\n\
    stream 6 F first 1 last 1 kept 1\n\
    1 9 f 6e6577\n\
    shard 7 boot 1 streams 1\n\
    stream 7 H first 0 last 0 kept 0\n\
    ";

const WANT: Want<'static> = Want {
    number: 0,
    out: REPORT,
    err: b"",
};

#[test]
fn a_store_is_printed_shard_by_shard(rt: HostRuntime) -> Result<(), Fail> {
    let alloc = rt.alloc();
    let mut files = MemFiles::new(alloc, Vec::new(alloc), Vec::new(alloc), Vec::new(alloc));
    for (name, bytes) in FILES {
        put_file(&mut files, name, bytes)?;
    }
    let out = MemSink::new(Vec::new(alloc), Vec::new(alloc));
    check_files(&rt, alloc, &mut files, out, &WANT)
}

/// A fresh folder under the system's temporary folder, with a folder `store` in it.
fn fresh_folder(rt: &HostRuntime) -> Result<PathBuf, Fail> {
    let id = process::id(rt.process());
    let name = format!(in rt.alloc(); "leafd-inspect-{id}")?;
    let folder = env::temp_dir(rt)?.join(rt.alloc(), name.as_str())?;
    let _ = fs::remove_dir_all(rt, folder.as_path());
    fs::create_dir(rt, folder.as_path())?;
    let store = folder.join(rt.alloc(), "store")?;
    fs::create_dir(rt, store.as_path())?;
    Ok(folder)
}

/// Sets who may write the folder `store` and its files: their owner, or nobody.
fn let_write(rt: &HostRuntime, folder: &PathBuf, may_write: bool) -> Result<(), Fail> {
    let (for_folder, for_file) = if may_write {
        (0o755, 0o644)
    } else {
        (0o555, 0o444)
    };
    for (name, _bytes) in FILES {
        let file = folder.join(rt.alloc(), str::from_utf8(name)?)?;
        fs::set_permissions(rt, file.as_path(), Permissions::from_mode(for_file))?;
    }
    let store = folder.join(rt.alloc(), "store")?;
    fs::set_permissions(rt, store.as_path(), Permissions::from_mode(for_folder))?;
    Ok(())
}

// The gate runs tests as a user who may not write what nobody may.
#[test]
fn a_store_in_a_folder_is_printed(rt: HostRuntime) -> Result<(), Fail> {
    let folder = fresh_folder(&rt)?;
    let text = String::from_str(rt.alloc(), folder.as_path().as_os_str())?;
    let mut files = DirFiles::new(rt, text);
    for (name, bytes) in FILES {
        put_file(&mut files, name, bytes)?;
    }
    let_write(&rt, &folder, false)?;
    let out = MemSink::new(Vec::new(rt.alloc()), Vec::new(rt.alloc()));
    check_files(&rt, rt.alloc(), &mut files, out, &WANT)?;
    let_write(&rt, &folder, true)?;
    fs::remove_dir_all(&rt, folder.as_path())?;
    Ok(())
}

// A file with a hole of one byte more than the greatest length.
#[test]
fn a_journal_that_is_too_long_is_told(rt: HostRuntime) -> Result<(), Fail> {
    let folder = fresh_folder(&rt)?;
    make_hole(&rt, &folder, (1 << 40) + 1)?;
    let text = String::from_str(rt.alloc(), folder.as_path().as_os_str())?;
    let mut files = DirFiles::new(rt, text);
    let out = MemSink::new(Vec::new(rt.alloc()), Vec::new(rt.alloc()));
    let want = Want {
        number: 12,
        out: b"",
        err: b"leafd: journal too long shard-0.a\n",
    };
    check_files(&rt, rt.alloc(), &mut files, out, &want)?;
    fs::remove_dir_all(&rt, folder.as_path())?;
    Ok(())
}

/// Makes the first disk of shard 0, of so many bytes, none of which is written.
fn make_hole(rt: &HostRuntime, folder: &PathBuf, len: u64) -> Result<(), Fail> {
    let path = folder.join(rt.alloc(), "store/shard-0.a")?;
    let file = File::create(rt, path.as_path())?;
    file.set_len(len)?;
    Ok(())
}
