ghost use Rattle.std.specs.Prelude.{◌≡◌, ◌≤◌, IfOk, OnErr};
ghost use Rattle.pl_world.specs.Counts.{Rose};

use pl_toy::Shelf;
use pl_value::{Bytes, OutOfMemory};
use pl_world::{Failed, Trouble};
use std::alloc::{AllocError, Global};
use std::fs::{self, File, OpenOptions};
use std::io::{self, ErrorKind, Read, Write};
use std::os::unix::fs::OpenOptionsExt;
use std::process;

/// The most bytes of a file that is read: four times the longest body of a frame.
const MAX_THING: u64 = 16_777_216;

/// A thing may hold secrets in plain text, so its file is its owner's alone.
const NEW_MODE: u32 = 0o600;

/// A folder as a shelf, with one file a thing, named by the lower-case hexadecimal digits of its id's bytes.
///
/// A thing is written to a file `new.` with this process's number behind it, which is synced and then put in place by a
/// rename, or by a link where nothing may be overwritten; then the folder is synced. So each thing is whole, whenever a
/// program or the machine stops. A folder that isn't there has no things, and is made for the first one. The empty id has
/// no file.
#[derive(Drop)]
pub struct FolderShelf {
    rt: HostRuntime,
    folder: String,
    draft: String,
    faults: u64,
}

impl FolderShelf {
    /// The shelf of the folder at this path; nothing is opened yet.
    pub fn new(rt: HostRuntime, folder: &str) -> Result<FolderShelf, OutOfMemory>
        ensures no_faults { IfOk result (λ shelf. ⟦<FolderShelf as Shelf>⟧.faults shelf ≡ 0) }
    {
        let alloc = rt.alloc();
        let number = process::id(rt.process());
        let draft = format!(in alloc; "{folder}/new.{number}")?;
        Ok(FolderShelf {
            rt,
            folder: String::from_str(alloc, folder)?,
            draft,
            faults: 0,
        })
    }

    /// How many calls have failed.
    pub fn faults(&self) -> u64
        ensures { result ≡ ⟦<FolderShelf as Shelf>⟧.faults self.now }
    {
        self.faults
    }

    // The same answer; an error counts as a fault.
    fn counted<T: Drop>(&mut self, answer: io::Result<T>) -> Result<T, Failed>
        ensures rose { OnErr result (Rose self.old.faults self.new.faults) }
        ensures never_falls { self.old.faults ≤ self.new.faults }
    {
        match answer {
            Ok(value) => Ok(value),
            Err(_) => {
                self.faults = self.faults.saturating_add(1);
                Err(Failed)
            }
        }
    }

    // The path of a thing's file.
    fn path_of(&self, alloc: Global, id: &str) -> Result<String, AllocError> {
        let digits = hex::encode(alloc, id.as_bytes())?;
        let (folder, name) = (self.folder.as_str(), digits.as_str());
        format!(in alloc; "{folder}/{name}")
    }

    // A new file, in a folder that is made where it isn't there. One that an earlier process of this number left goes.
    fn new_file(&self) -> io::Result<File> {
        match fs::create_dir(&self.rt, self.folder.as_str()) {
            Ok(()) => {}
            Err(error) if error.kind() == ErrorKind::AlreadyExists => {}
            Err(error) => return Err(error),
        }
        let _ = fs::remove_file(&self.rt, self.draft.as_str());
        let mut options = OpenOptions::new();
        options.write(true).create_new(true).mode(NEW_MODE);
        options.open(&self.rt, self.draft.as_str())
    }

    // Fills the new file.
    fn fill(&self, bytes: &[u8]) -> io::Result<()> {
        let mut file = self.new_file()?;
        file.write_all(bytes)?;
        file.sync_all()
    }

    fn sync_folder(&self) -> io::Result<()> {
        File::open(&self.rt, self.folder.as_str())?.sync_all()
    }

    // Puts a thing there, in the place of one that is there.
    fn place(&self, path: &str, bytes: &[u8]) -> io::Result<()> {
        self.fill(bytes)?;
        fs::rename(&self.rt, self.draft.as_str(), path)?;
        self.sync_folder()
    }

    // Puts a thing there unless one is there, and says whether it did.
    fn place_new(&self, path: &str, bytes: &[u8]) -> io::Result<bool> {
        if fs::exists(&self.rt, path)? {
            return Ok(false);
        }
        self.fill(bytes)?;
        let linked = fs::hard_link(&self.rt, self.draft.as_str(), path);
        fs::remove_file(&self.rt, self.draft.as_str())?;
        match linked {
            Ok(()) => {}
            Err(error) if error.kind() == ErrorKind::AlreadyExists => return Ok(false),
            Err(error) => return Err(error),
        }
        self.sync_folder()?;
        Ok(true)
    }

    // Takes a thing away, if it is there.
    fn take_away(&self, path: &str) -> io::Result<()> {
        match fs::remove_file(&self.rt, path) {
            Ok(()) => self.sync_folder(),
            Err(error) if error.kind() == ErrorKind::NotFound => Ok(()),
            Err(error) => Err(error),
        }
    }
}

// What the file at this path has, or none where there is no file.
fn content_at(alloc: Global, rt: &HostRuntime, path: &str) -> io::Result<Option<Bytes>> {
    let file = match File::open(rt, path) {
        Ok(file) => file,
        Err(error) if error.kind() == ErrorKind::NotFound => return Ok(None),
        Err(error) => return Err(error),
    };
    let mut bytes = Vec::new(alloc);
    file.take(MAX_THING + 1).read_to_end(&mut bytes)?;
    if bytes.len() as u64 > MAX_THING {
        return Err(io::Error::from(ErrorKind::FileTooLarge));
    }
    Ok(Some(Bytes::from_vec(bytes)))
}

impl Shelf for FolderShelf {
    ghost use Rattle.std.specs.Prelude.{None};

    ghost faults = { λ shelf. shelf.faults };

    ghost things = { λ _. None };

    fn get(&mut self, alloc: Global, id: &str) -> Result<Option<Bytes>, Trouble> {
        if id.is_empty() {
            return Ok(None);
        }
        let path = self.path_of(alloc, id)?;
        let content = content_at(alloc, &self.rt, path.as_str());
        if is_memory_wanted(&content) {
            return Err(Trouble::OutOfMemory);
        }
        Ok(self.counted(content)?)
    }

    fn put_new(&mut self, alloc: Global, id: &str, bytes: &[u8]) -> Result<bool, Trouble> {
        let path = self.path_of(alloc, id)?;
        let placed = self.place_new(path.as_str(), bytes);
        Ok(self.counted(placed)?)
    }

    fn put(&mut self, alloc: Global, id: &str, bytes: &[u8]) -> Result<(), Trouble> {
        let path = self.path_of(alloc, id)?;
        let placed = self.place(path.as_str(), bytes);
        Ok(self.counted(placed)?)
    }

    fn remove(&mut self, alloc: Global, id: &str) -> Result<(), Trouble> {
        if id.is_empty() {
            return Ok(());
        }
        let path = self.path_of(alloc, id)?;
        let taken = self.take_away(path.as_str());
        Ok(self.counted(taken)?)
    }
}

// Whether memory was wanted for what was read.
fn is_memory_wanted(content: &io::Result<Option<Bytes>>) -> bool {
    match content {
        Ok(_) => false,
        Err(error) => error.kind() == ErrorKind::OutOfMemory,
    }
}
