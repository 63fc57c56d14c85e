//! Files of the system, in folders of their own under the system's temporary folder.
use leaf_edges::{DirFiles, Disk, EdgeError, FileDisk, Files};
use std::path::PathBuf;
use std::test::Fail;
use std::{env, fs, process};

/// A fresh folder.
fn fresh_folder(rt: &HostRuntime, word: &str) -> Result<PathBuf, Fail> {
    let id = process::id(rt.process());
    let name = format!(in rt.alloc(); "leaf-edges-{word}-{id}")?;
    let folder = env::temp_dir(rt)?.join(rt.alloc(), name.as_str())?;
    let _ = fs::remove_dir_all(rt, folder.as_path());
    fs::create_dir(rt, folder.as_path())?;
    Ok(folder)
}

fn files_in(rt: HostRuntime, folder: &PathBuf) -> Result<DirFiles, Fail> {
    let text = String::from_str(rt.alloc(), folder.as_path().as_os_str())?;
    Ok(DirFiles::new(rt, text))
}

/// The disk of a name that has one.
fn taken(files: &mut DirFiles, name: &[u8], make: bool) -> Result<FileDisk, EdgeError> {
    match files.disk(name, make)? {
        Some(disk) => Ok(disk),
        None => Err(EdgeError::Failed),
    }
}

#[test]
fn a_folder_keeps_its_disks(rt: HostRuntime) -> Result<(), Fail> {
    let folder = fresh_folder(&rt, "keeps")?;
    let mut files = files_in(rt, &folder)?;
    assert!(rt; taken(&mut files, b"d", false).is_err());
    assert!(rt; is_written(&mut files, b"d")?);
    let mut again = files_in(rt, &folder)?;
    assert!(rt; is_read(&mut again, b"d")?);
    assert!(rt; again.disk_fault_count() == 1 && again.fault_count() == 0);
    assert!(rt; has_text(&rt, &mut again, b"d")?);
    fs::remove_dir_all(&rt, folder.as_path())?;
    Ok(())
}

/// Whether a disk is made, written, cut and synced.
fn is_written(files: &mut DirFiles, name: &[u8]) -> Result<bool, EdgeError> {
    let mut disk = taken(files, name, true)?;
    let is_it = disk.len() == Ok(0)
        && disk.write_at(0, b"hello, all").is_ok()
        && disk.write_at(5, b"!").is_ok()
        && disk.cut(8).is_ok()
        && disk.sync().is_ok()
        && disk.fault_count() == 0;
    files.back(name, disk);
    Ok(is_it)
}

/// Whether that disk is read, and whether it fails at a read past its end and goes on.
fn is_read(files: &mut DirFiles, name: &[u8]) -> Result<bool, EdgeError> {
    let mut disk = taken(files, name, false)?;
    let mut buf = [0u8; 6];
    let is_it = disk.len() == Ok(8)
        && disk.read(2, &mut buf).is_ok()
        && buf == *b"llo! a"
        && disk.read(3, &mut buf) == Err(EdgeError::Failed)
        && disk.fault_count() == 1
        && disk.len() == Ok(8);
    files.back(name, disk);
    Ok(is_it)
}

/// Whether it is a text, and no other name has one.
fn has_text(rt: &HostRuntime, files: &mut DirFiles, name: &[u8]) -> Result<bool, Fail> {
    let mut text = b">".to_vec(rt.alloc())?;
    let found = files.text(name, &mut text) == Ok(true);
    let other = files.text(b"none", &mut text) == Ok(false);
    Ok(found && other && text.as_slice() == b">hello! a".as_slice())
}

#[test]
fn what_cannot_be_made_is_a_fault(rt: HostRuntime) -> Result<(), Fail> {
    let mut files = DirFiles::new(rt, String::from_str(rt.alloc(), "/proc")?);
    // A name that isn't text, one in a folder that isn't there, and two in a folder that nobody may
    // write.
    let names: [&[u8]; 4] = [b"\xFF", b"none/d", b"leaf-edges", b"/proc/leaf-edges"];
    for name in names {
        assert!(rt; files.disk(name, true).is_err());
    }
    assert!(rt; files.fault_count() == 4);
    Ok(())
}

// A program that runs can be read, and nobody may write it.
#[test]
fn what_may_only_be_read_is_read(rt: HostRuntime) -> Result<(), Fail> {
    let mut files = DirFiles::new(rt, String::from_str(rt.alloc(), "/proc/self")?);
    let mut program = taken(&mut files, b"exe", false)?;
    let mut buf = [0u8; 4];
    assert!(rt; program.read(0, &mut buf).is_ok() && buf == *b"\x7fELF");
    assert!(rt; program.write_at(0, b"x").is_err());
    assert!(rt; files.disk(b"exe", true).is_err());
    Ok(())
}

#[test]
fn an_absolute_path_is_served_again(rt: HostRuntime) -> Result<(), Fail> {
    let folder = fresh_folder(&rt, "absolute")?;
    let path = folder.join(rt.alloc(), "d")?;
    let name = path.as_path().as_os_str().as_bytes();
    let mut files = DirFiles::new(rt, String::from_str(rt.alloc(), "somewhere")?);
    assert!(rt; is_written(&mut files, name)?);
    assert!(rt; is_served_once(&mut files, name)?);
    assert!(rt; is_read(&mut files, name)?);
    fs::remove_dir_all(&rt, folder.as_path())?;
    Ok(())
}

/// Whether a disk that is out isn't handed out to write a second time.
fn is_served_once(files: &mut DirFiles, name: &[u8]) -> Result<bool, EdgeError> {
    let disk = taken(files, name, true)?;
    let is_it = files.disk(name, true).is_err();
    files.back(name, disk);
    Ok(is_it)
}
