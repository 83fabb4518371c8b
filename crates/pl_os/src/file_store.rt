ghost use Rattle.std.specs.Prelude.{◌≡◌, IfOk};

use crate::counts::{Count, counted, counted_or_memory};
use pl_value::{Bytes, OutOfMemory};
use pl_world::{Covering, Store, Trouble};
use std::alloc::Global;
use std::fs::{self, File, OpenOptions};
use std::io::{self, ErrorKind, Read, Write};
use std::os::unix::fs::{OpenOptionsExt, PermissionsExt};

/// The most bytes of a file that is read: 1 GiB.
const MAX_CONTENT: u64 = 1_073_741_824;

/// What the name of the neighbour file has behind the file's own name.
const NEIGHBOUR: &str = ".new";

/// A new file may hold secrets in plain text, so it is its owner's alone.
const NEW_MODE: u32 = 0o600;

const ALL_MODES: u32 = 0o777;

/// The cover of a `FileStore`. It tells nothing, and no other code makes one.
#[derive(Debug, Drop)]
pub struct FileCover {
    sealed: (),
}

impl Covering for FileCover {
    ghost use Rattle.std.specs.Prelude.{None};

    ghost text = { λ _. None };
}

/// A file as a store. It may be absent, and then the store has no content.
///
/// A replacement writes a neighbour file in the same folder, named as the file with `.new` behind it,
/// syncs it, renames it to the file and syncs the folder. So the file has the old content or the new one,
/// whole, whenever the program or the machine stops. What an earlier program left of a neighbour goes.
/// The new file has the permissions of the old one, or is its owner's alone where there was none.
#[derive(Drop)]
pub struct FileStore {
    rt: HostRuntime,
    path: String,
    neighbour: String,
    folder: String,
    faults: Count,
}

impl FileStore {
    /// The store of the file at this path; nothing is opened yet.
    pub fn new(rt: HostRuntime, path: &str) -> Result<FileStore, OutOfMemory>
        ensures no_faults { IfOk result (λ store. ⟦<FileStore as Store>⟧.faults store ≡ 0) }
    {
        let alloc = rt.alloc();
        let neighbour = format!(in alloc; "{path}{NEIGHBOUR}")?;
        Ok(FileStore {
            rt,
            path: String::from_str(alloc, path)?,
            neighbour,
            folder: String::from_str(alloc, folder_of(path))?,
            faults: Count::zero(),
        })
    }

    /// How many calls have failed.
    pub fn faults(&self) -> u64
        ensures { result ≡ ⟦<FileStore as Store>⟧.faults self.now }
    {
        self.faults.value()
    }

    // The permissions that the file is to have. There is none for what is no file.
    fn mode(&self) -> io::Result<u32> {
        match fs::metadata(&self.rt, self.path.as_str()) {
            Ok(found) if found.is_file() => Ok(found.permissions().mode() & ALL_MODES),
            Ok(_) => Err(io::Error::from(ErrorKind::InvalidInput)),
            Err(error) if error.kind() == ErrorKind::NotFound => Ok(NEW_MODE),
            Err(error) => Err(error),
        }
    }

    // A new file under the neighbour's name. One that was left there goes first, and nothing is written
    // through a link that stands there.
    fn new_neighbour(&self) -> io::Result<File> {
        let _ = fs::remove_file(&self.rt, self.neighbour.as_str());
        let mut options = OpenOptions::new();
        options.write(true).create_new(true).mode(NEW_MODE);
        options.open(&self.rt, self.neighbour.as_str())
    }

    // Fills the neighbour, and renames it to the file.
    fn fill(&self, mut neighbour: File, mode: u32, bytes: &[u8]) -> io::Result<()> {
        neighbour.set_permissions(PermissionsExt::from_mode(mode))?;
        neighbour.write_all(bytes)?;
        neighbour.sync_all()?;
        fs::rename(&self.rt, self.neighbour.as_str(), self.path.as_str())
    }

    // The cover is made here alone, after each step.
    fn put(&self, bytes: &[u8]) -> io::Result<FileCover> {
        let mode = self.mode()?;
        let neighbour = self.new_neighbour()?;
        if let Err(error) = self.fill(neighbour, mode, bytes) {
            let _ = fs::remove_file(&self.rt, self.neighbour.as_str());
            return Err(error);
        }
        File::open(&self.rt, self.folder.as_str())?.sync_all()?;
        Ok(FileCover { sealed: () })
    }
}

// The folder of the file at this path.
fn folder_of(path: &str) -> &str {
    match path.rsplit_once('/') {
        None => ".",
        Some(("", _)) => "/",
        Some((folder, _)) => folder,
    }
}

// What the file at this path has, or none where there is no file.
fn content_at(alloc: Global, rt: &HostRuntime, path: &str) -> io::Result<Option<Bytes>> {
    let file = match File::open(rt, path) {
        Ok(file) => file,
        Err(error) if error.kind() == ErrorKind::NotFound => return Ok(None),
        Err(error) => return Err(error),
    };
    if file.metadata()?.len() > MAX_CONTENT {
        return Err(io::Error::from(ErrorKind::FileTooLarge));
    }
    let mut bytes = Vec::new(alloc);
    file.take(MAX_CONTENT + 1).read_to_end(&mut bytes)?;
    if bytes.len() as u64 > MAX_CONTENT {
        return Err(io::Error::from(ErrorKind::FileTooLarge));
    }
    Ok(Some(Bytes::from_vec(bytes)))
}

impl Store for FileStore {
    ghost use Rattle.std.specs.Prelude.{None};

    type Cover = FileCover;

    ghost faults = { λ store. store.faults.value };

    ghost story = { λ _. None };

    fn read(&mut self, alloc: Global) -> Result<Option<Bytes>, Trouble> {
        let content = content_at(alloc, &self.rt, self.path.as_str());
        counted_or_memory(&mut self.faults, content)
    }

    fn replace(&mut self, _alloc: Global, bytes: &[u8]) -> Result<FileCover, Trouble> {
        let put = self.put(bytes);
        Ok(counted(&mut self.faults, put)?)
    }
}
