ghost use Rattle.std.specs.Prelude.{◌≡◌, Some, None, is_none};

use crate::MemDisk;
use std::marker::Model;

/// A name and its disk, which may be out.
#[derive(Debug, Drop)]
pub struct NamedDisk {
    name: Vec<u8>,
    disk: Option<MemDisk>,
}

impl Model for NamedDisk {
    ghost use Rattle.mem_disk.specs.Stores.{Slot};

    ghost Value = { Slot };

    ghost view = { λ s. record { name = s.name.items; disk = s.disk } };
}

impl NamedDisk {
    pub fn new(name: Vec<u8>, disk: MemDisk) -> NamedDisk
        ensures { result ≡ record { name = name.items; disk = Some disk } }
    {
        NamedDisk {
            name,
            disk: Some(disk),
        }
    }

    /// A name whose disk is out.
    pub(crate) fn out(name: Vec<u8>) -> NamedDisk
        ensures { result ≡ record { name = name.items; disk = None } }
    {
        NamedDisk { name, disk: None }
    }

    pub(crate) fn name(&self) -> &[u8]
        ensures { result.now ≡ self.now.name }
    {
        self.name.as_slice()
    }

    pub(crate) fn is_out(&self) -> bool
        ensures { result ≡ is_none self.now.disk }
    {
        self.disk.is_none()
    }

    pub(crate) fn take(&mut self) -> Option<MemDisk>
        ensures disk { result ≡ self.old.disk }
        ensures rest { self.new ≡ record self.old { disk = None } }
    {
        self.disk.take()
    }

    pub(crate) fn put(&mut self, disk: MemDisk)
        ensures { self.new ≡ record self.old { disk = Some disk } }
    {
        self.disk = Some(disk);
    }
}

/// A name and the bytes of its text.
#[derive(Debug, Drop)]
pub struct NamedText {
    name: Vec<u8>,
    bytes: Vec<u8>,
}

impl Model for NamedText {
    ghost use Rattle.mem_disk.specs.Stores.{Text};

    ghost Value = { Text };

    ghost view = { λ s. record { name = s.name.items; bytes = s.bytes.items } };
}

impl NamedText {
    pub fn new(name: Vec<u8>, bytes: Vec<u8>) -> NamedText
        ensures { result ≡ record { name = name.items; bytes = bytes.items } }
    {
        NamedText { name, bytes }
    }

    pub(crate) fn name(&self) -> &[u8]
        ensures { result.now ≡ self.now.name }
    {
        self.name.as_slice()
    }

    pub(crate) fn bytes(&self) -> &[u8]
        ensures { result.now ≡ self.now.bytes }
    {
        self.bytes.as_slice()
    }
}
