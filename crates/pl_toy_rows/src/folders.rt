use crate::piped::is_exchanged;
use pl_os_shelf::FolderShelf;
use pl_toy::Shelf;
use pl_toy_pipe::{ToyPipe, toy_pipe};
use pl_world::MemCover;
use std::alloc::{AllocError, Global};
use std::test::Fail;
use std::{env, fs, process};

// A place in which no folder is yet.
fn new_place(rt: &HostRuntime, name: &str) -> Result<String, Fail> {
    let place = env::temp_dir(rt)?;
    let (place, number) = (place.as_str(), process::id(rt.process()));
    Ok(format!(in rt.alloc(); "{place}/pl_toy_{name}_{number}")?)
}

// A call of a shelf, in words: what it is, an id and bytes.
type Call<'a> = (&'a str, &'a str, &'a [u8]);

// What comes of a call, and how many calls have failed.
fn called(alloc: Global, shelf: &mut FolderShelf, call: Call<'_>) -> Result<String, AllocError> {
    let (name, id, bytes) = call;
    let came = match name {
        "get" => {
            let found = shelf.get(alloc, id);
            format!(in alloc; "{found:?}")?
        }
        "put_new" => {
            let is_new = shelf.put_new(alloc, id, bytes);
            format!(in alloc; "{is_new:?}")?
        }
        "put" => {
            let put = shelf.put(alloc, id, bytes);
            format!(in alloc; "{put:?}")?
        }
        _ => {
            let removed = shelf.remove(alloc, id);
            format!(in alloc; "{removed:?}")?
        }
    };
    format!(in alloc; "{came} {}", shelf.faults())
}

#[test]
fn things_are_kept_in_files(rt: HostRuntime) -> Result<(), Fail> {
    let alloc = rt.alloc();
    let folder = new_place(&rt, "kept")?;
    let mut shelf = FolderShelf::new(rt, folder.as_str())?;
    let cases: [(Call<'_>, &str); 11] = [
        (("get", "a-1", b""), "Ok(None) 0"),
        (("remove", "a-1", b""), "Ok(()) 0"),
        (("put_new", "a-1", b"x"), "Ok(true) 0"),
        (("put_new", "a-1", b"y"), "Ok(false) 0"),
        (("get", "a-1", b""), "Ok(Some(Bytes { bytes: [120] })) 0"),
        (("put", "a-1", b"z"), "Ok(()) 0"),
        (("put", "/\u{e9}", b""), "Ok(()) 0"),
        (("get", "a-1", b""), "Ok(Some(Bytes { bytes: [122] })) 0"),
        (("remove", "a-1", b""), "Ok(()) 0"),
        (("put", "", b"x"), "Err(Failed) 1"),
        (("get", "", b""), "Ok(None) 1"),
    ];
    for (call, want) in cases {
        let found = called(alloc, &mut shelf, call)?;
        assert_eq!(rt; found.as_str(), want);
    }
    let file = format!(in alloc; "{folder}/2fc3a9")?;
    assert!(rt; fs::exists(&rt, file.as_str())?);
    fs::remove_dir_all(&rt, folder.as_str())?;
    Ok(())
}

const CREATE: &str =
    r#"{"call":"create","inputs":{"k":1},"n":1,"urn":"urn:pulumi:dev::web::toy:index:Thing::a"} => {"n":1,"ok":{"id":"a-1","outputs":{"k":1}}}"#;

#[test]
fn a_toy_in_memory_keeps_things_in_files(rt: HostRuntime) -> Result<(), Fail> {
    let alloc = rt.alloc();
    let folder = new_place(&rt, "piped")?;
    let shelf = FolderShelf::new(rt, folder.as_str())?;
    let mut pipe: ToyPipe<FolderShelf, MemCover> = toy_pipe(alloc, shelf);
    assert!(rt; is_exchanged(alloc, &mut pipe, CREATE)?);
    let mut shelf = pipe.into_shelf();
    let found = called(alloc, &mut shelf, ("get", "a-1", b""))?;
    assert_eq!(rt;
        found.as_str(),
        "Ok(Some(Bytes { bytes: [123, 34, 107, 34, 58, 49, 125] })) 0"
    );
    fs::remove_dir_all(&rt, folder.as_str())?;
    Ok(())
}
