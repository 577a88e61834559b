// Scratch: one file of the system, in which each slot has a place of its own.

ghost use Rattle.std.specs.Prelude.{◌≡◌, IfOk, None, false, vec_len};

use crate::shown::Shown;
use outside::{Failed, Slot};
use std::alloc::{AllocError, Global};
use std::fs::{File, OpenOptions};
use std::io::{Read, Seek, SeekFrom, Write};
use std::os::unix::fs::OpenOptionsExt;
use std::rt::{Env, Files};
use std::sync::{Mutex, Wait};
use std::{env, fs, io};

/// How many slots the program hands to the top call.
pub const SLOTS: usize = 131072;

// The bytes from the place of one slot to that of the next: as many as the longest block has.
const PLACE: u64 = 65536;

// The owner alone may read the file.
const OWNER_ALONE: u32 = 0o600;

// So many names are tried for the file.
const NAMES: u32 = 64;

// The file, once something was stored, and whether a person was told that it failed.
#[derive(Drop)]
struct Opened {
    file: Option<File>,
    told: bool,
}

/// A file that comes with the first store, and that is nowhere in a folder from then on, so nothing is left of it when the
/// program ends, however that comes. It grows with what is stored.
#[derive(Drop)]
pub struct Scratch<'a, R> {
    rt: &'a R,
    opened: Mutex<Opened>,
}

impl<'a, R: Files<File = File> + Env + Eprint + AllocGlobal + Wait> Scratch<'a, R> {
    /// Scratch in the folder that `TMPDIR` names, else in `/tmp`. No file is made yet.
    pub fn new(rt: &'a R) -> Scratch<'a, R> {
        Scratch {
            rt,
            opened: Mutex::new(Opened {
                file: None,
                told: false,
            }),
        }
    }

    /// So many slots, each with 65536 bytes of the file, which is the most that a block has. The only error is out of memory.
    ///
    /// Where a slot fails, standard error says why, once for all slots.
    pub fn slots(&self, alloc: Global, count: usize) -> Result<Vec<Place<'_, 'a, R>>, AllocError>
        ensures { IfOk result (λ slots. vec_len slots ≡ count) }
    {
        let mut slots = Vec::with_capacity(alloc, count)?;
        for number in 0..count {
            slots.push(Place {
                scratch: self,
                at: (number as u64).saturating_mul(PLACE),
                faults: 0,
            })?;
        }
        Ok(slots)
    }

    fn store(&self, at: u64, block: &[u8]) -> io::Result<()> {
        let mut opened = self.opened.lock(self.rt);
        let stored = self.store_in(&mut opened, at, block);
        if let Err(e) = &stored {
            self.tell(&mut opened, e);
        }
        stored
    }

    fn store_in(&self, opened: &mut Opened, at: u64, block: &[u8]) -> io::Result<()> {
        let file = match opened.file.take() {
            Some(file) => file,
            None => self.make()?,
        };
        let file = opened.file.insert(file);
        file.seek(SeekFrom::Start(at))?;
        file.write_all(block)
    }

    fn load(&self, at: u64, block: &mut [u8]) -> io::Result<()> {
        let mut opened = self.opened.lock(self.rt);
        let loaded = load_in(&mut opened, at, block);
        if let Err(e) = &loaded {
            self.tell(&mut opened, e);
        }
        loaded
    }

    // A new file, whose name is gone as soon as it is open.
    fn make(&self) -> io::Result<File> {
        let folder = env::temp_dir(self.rt)?;
        let folder = folder.as_str();
        for number in 0..NAMES {
            let name = format!(in self.rt.alloc(); "{folder}/spill-scratch-{number}")?;
            match new_file(self.rt, name.as_str()) {
                Ok(file) => {
                    fs::remove_file(self.rt, name.as_str())?;
                    return Ok(file);
                }
                Err(e) if e.kind() == io::ErrorKind::AlreadyExists => {}
                Err(e) => return Err(e),
            }
        }
        Err(io::Error::other(
            "its 64 names are taken: remove the files spill-scratch-0 to spill-scratch-63",
        ))
    }

    // Once is enough: what failed is likely to fail again.
    fn tell(&self, opened: &mut Opened, why: &io::Error) {
        if opened.told {
            return;
        }
        opened.told = true;
        if let Ok(folder) = env::temp_dir(self.rt) {
            let _ = eprintln!(self.rt;
                "spill: the scratch file in {} failed: {why}: free space there, or name another folder in TMPDIR",
                Shown(folder.as_str())
            );
        }
    }
}

fn new_file<R: Files<File = File>>(rt: &R, name: &str) -> io::Result<File> {
    OpenOptions::new()
        .read(true)
        .write(true)
        .create_new(true)
        .mode(OWNER_ALONE)
        .open(rt, name)
}

fn load_in(opened: &mut Opened, at: u64, block: &mut [u8]) -> io::Result<()> {
    let Some(file) = &mut opened.file else {
        return Err(io::Error::from(io::ErrorKind::NotFound));
    };
    file.seek(SeekFrom::Start(at))?;
    file.read_exact(block)
}

/// The place of one slot in the file. It counts its faults and tells nothing of what it holds.
#[derive(Drop)]
pub struct Place<'s, 'a, R> {
    scratch: &'s Scratch<'a, R>,
    at: u64,
    faults: u64,
}

impl<R: Files<File = File> + Env + Eprint + AllocGlobal + Wait> Slot for Place<'_, '_, R> {
    ghost tells = { λ _. false };

    ghost held = { λ _. None };

    ghost stores = { λ _. None };

    ghost strays = { λ _. None };

    ghost faults = { λ s. s.faults };

    fn store(&mut self, block: &[u8]) -> Result<(), Failed> {
        match self.scratch.store(self.at, block) {
            Ok(()) => Ok(()),
            Err(_) => {
                self.faults = self.faults.saturating_add(1);
                Err(Failed)
            }
        }
    }

    fn load(&mut self, block: &mut [u8]) -> Result<(), Failed> {
        match self.scratch.load(self.at, block) {
            Ok(()) => Ok(()),
            Err(_) => {
                self.faults = self.faults.saturating_add(1);
                Err(Failed)
            }
        }
    }
}
