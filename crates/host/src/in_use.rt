// The files of the system that a run reads and those that it replaces, so that nothing of an input is lost.

use std::alloc::{AllocError, Global};
use std::cell::RefCell;
use std::fs::Metadata;
use std::os::unix::fs::MetadataExt;

// A file, whichever of its names is used.
#[derive(Clone, Copy, Debug, PartialEq, Eq)]
struct FileId {
    device: u64,
    number: u64,
}

impl FileId {
    fn of(data: &Metadata) -> FileId {
        FileId {
            device: data.dev(),
            number: data.ino(),
        }
    }
}

/// The files that a run reads and those that it replaces, whichever of their names is used. Inputs and outputs share it. A
/// file that was read stays in it when it is closed.
#[derive(Drop)]
pub struct InUse {
    read: RefCell<Vec<FileId>>,
    replaced: RefCell<Vec<FileId>>,
}

impl InUse {
    /// No file is read yet, and none replaced.
    pub fn new(alloc: Global) -> InUse {
        InUse {
            read: RefCell::new(Vec::new(alloc)),
            replaced: RefCell::new(Vec::new(alloc)),
        }
    }

    // A file is to be read: whether no output replaces it.
    pub(crate) fn reads(&self, data: &Metadata) -> Result<bool, AllocError> {
        enter(FileId::of(data), &self.read, &self.replaced)
    }

    // A file is to be replaced: whether no input is read from it.
    pub(crate) fn replaces(&self, data: &Metadata) -> Result<bool, AllocError> {
        enter(FileId::of(data), &self.replaced, &self.read)
    }
}

// Puts a file on a list, unless it is on the other one.
fn enter(
    id: FileId,
    list: &RefCell<Vec<FileId>>,
    other: &RefCell<Vec<FileId>>,
) -> Result<bool, AllocError> {
    let Ok(other) = other.try_borrow() else {
        return Ok(false);
    };
    if other.as_slice().contains(&id) {
        return Ok(false);
    }
    let Ok(mut list) = list.try_borrow_mut() else {
        return Ok(false);
    };
    list.push(id)?;
    Ok(true)
}
