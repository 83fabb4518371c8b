//! Runs of `up` over real files and children, which end at each of the places where they may be cut short, and what
//! `state check` then says of the file.
use pl_decide::Outcome;
use pl_engine::{Finished, World, engine};
use pl_os::{Children, FileStore};
use pl_value::OutOfMemory;
use pl_world::{CountIds, FreeGate, MemSink};
use std::alloc::{AllocError, Global};
use std::sync::Wait;
use std::test::Fail;
use std::thread::Threads;
use std::{env, fs, process};

// What the host says: it registers a stack and a component below it, and is done.
const BODIES: [&str; 3] = [
    r#"{"call":"register","n":1,"type":"pulumi:pulumi:Stack","name":"web-dev"}"#,
    r#"{"call":"register","n":2,"type":"my:index:Site","name":"s"}"#,
    r#"{"call":"done"}"#,
];

const NONE: &str = "Done sound: 0 resources, 0 pending\n";

const ONE: &str = "Done sound: 1 resources, 0 pending\n";

const TWO: &str = "Done sound: 2 resources, 0 pending\n";

const ENDED: &str = "ChildEnded(Host) ";

// How many bytes of its frames the host sends before it ends, what the run comes to, and what the file holds then. The
// frames end at 75, 138 and 157.
const CUTS: [(usize, &str, &str); 13] = [
    (0, ENDED, NONE),
    (3, ENDED, NONE),
    (4, ENDED, NONE),
    (40, ENDED, NONE),
    (74, ENDED, NONE),
    (75, ENDED, ONE),
    (77, ENDED, ONE),
    (79, ENDED, ONE),
    (137, ENDED, ONE),
    (138, ENDED, TWO),
    (141, ENDED, TWO),
    (156, ENDED, TWO),
    (157, "Done ", TWO),
];

fn frames(alloc: Global) -> Result<Vec<u8>, Fail> {
    let mut bytes = Vec::new(alloc);
    for body in BODIES {
        bytes.extend_from_slice(&(body.len() as u32).to_be_bytes())?;
        bytes.extend_from_slice(body.as_bytes())?;
    }
    Ok(bytes)
}

// A new folder with the host's frames in a file.
fn new_folder(rt: &HostRuntime, name: &str) -> Result<String, Fail> {
    let place = env::temp_dir(rt)?;
    let (place, number) = (place.as_str(), process::id(rt.process()));
    let folder = format!(in rt.alloc(); "{place}/pulumi_engine_{name}_{number}")?;
    fs::create_dir(rt, folder.as_str())?;
    let path = format!(in rt.alloc(); "{folder}/frames")?;
    fs::write(rt, path.as_str(), frames(rt.alloc())?.as_slice())?;
    Ok(folder)
}

type Real = World<FileStore, FileStore, Children, MemSink, CountIds, FreeGate>;

// The world of files and processes, but for a sink in memory.
fn world_of(rt: HostRuntime, file: &str) -> Result<Real, OutOfMemory> {
    let alloc = rt.alloc();
    Ok(World {
        store: FileStore::new(rt, file)?,
        side: FileStore::new(rt, "")?,
        spawner: Children::new(rt),
        sink: MemSink::new(alloc, Vec::new(alloc), Vec::new(alloc)),
        ids: CountIds::new(),
        gate: FreeGate,
    })
}

// The words of a run whose host is this script.
fn run_words(alloc: Global, file: &str, script: &str) -> Result<Vec<String>, AllocError> {
    let mut words = Vec::new(alloc);
    for word in ["up", "--stack", "dev", "--project", "web", "--file"] {
        words.push(String::from_str(alloc, word)?)?;
    }
    for word in [file, "--", "sh", "-c", script] {
        words.push(String::from_str(alloc, word)?)?;
    }
    Ok(words)
}

// The words that ask whether what the file holds is sound.
fn check_words(alloc: Global, file: &str) -> Result<Vec<String>, AllocError> {
    let mut words = Vec::new(alloc);
    for word in ["state", "check", "--file", file] {
        words.push(String::from_str(alloc, word)?)?;
    }
    Ok(words)
}

// The outcome, and what was printed.
fn shown(alloc: Global, outcome: &Outcome, printed: &[u8]) -> Result<String, AllocError> {
    let printed = String::from_utf8_lossy(alloc, printed)?;
    format!(in alloc; "{outcome:?} {printed}")
}

// What the words come to over the file.
fn came<R: Threads + Wait + Sync>(
    threads: &R,
    rt: HostRuntime,
    file: &str,
    words: &[String],
) -> Result<String, Fail> {
    let world = world_of(rt, file)?;
    let Finished {
        outcome,
        world,
        run,
        ..
    } = engine(threads, rt.alloc(), words, world);
    let text = shown(rt.alloc(), &outcome, world.sink.written())?;
    world.spawner.finish(run);
    Ok(text)
}

// What a run with this script as its host comes to over the file, and what `state check` says of it then.
fn run_and_check<R: Threads + Wait + Sync>(
    threads: &R,
    rt: HostRuntime,
    file: &str,
    script: &str,
) -> Result<String, Fail> {
    let words = run_words(rt.alloc(), file, script)?;
    let ran = came(threads, rt, file, words.as_slice())?;
    let words = check_words(rt.alloc(), file)?;
    let checked = came(threads, rt, file, words.as_slice())?;
    Ok(format!(in rt.alloc(); "{ran}{checked}")?)
}

// A run over a file of this name in the folder, whose host sends so many bytes of its frames and no more, and reads until
// its input ends.
fn cut_run<R: Threads + Wait + Sync>(
    threads: &R,
    rt: HostRuntime,
    folder: &str,
    name: &str,
    count: usize,
) -> Result<String, Fail> {
    let file = format!(in rt.alloc(); "{folder}/{name}")?;
    let script = format!(in rt.alloc(); "head -c {count} {folder}/frames; exec cat >/dev/null")?;
    run_and_check(threads, rt, file.as_str(), script.as_str())
}

// Whether a run that is cut short after so many bytes ends so, and leaves this.
fn is_cut_so<R: Threads + Wait + Sync>(
    threads: &R,
    rt: HostRuntime,
    folder: &str,
    case: (usize, &str, &str),
) -> Result<bool, Fail> {
    let (count, outcome, left) = case;
    let name = format!(in rt.alloc(); "{count}.json")?;
    let want = format!(in rt.alloc(); "{outcome}{left}")?;
    let came = cut_run(threads, rt, folder, name.as_str(), count)?;
    Ok(came.as_str() == want.as_str())
}

#[test]
fn hosts_end_at_each_place(rt: HostRuntime) -> Result<(), Fail> {
    let folder = new_folder(&rt, "cut")?;
    for case in CUTS {
        assert!(rt; is_cut_so(&rt, rt, folder.as_str(), case)?, "at {}", case.0);
    }
    fs::remove_dir_all(&rt, folder.as_str())?;
    Ok(())
}

// A folder in the place of a file, and a neighbour that an earlier run left.
fn make_hindrances(rt: &HostRuntime, folder: &str) -> Result<(), Fail> {
    let place = format!(in rt.alloc(); "{folder}/folder")?;
    fs::create_dir(rt, place.as_str())?;
    let neighbour = format!(in rt.alloc(); "{folder}/beside.new")?;
    fs::write(rt, neighbour.as_str(), "left by a run that was cut short")?;
    Ok(())
}

#[test]
fn files_and_hosts_are_hindered(rt: HostRuntime) -> Result<(), Fail> {
    let folder = new_folder(&rt, "hindered")?;
    make_hindrances(&rt, folder.as_str())?;
    let beside = cut_run(&rt, rt, folder.as_str(), "beside", 157)?;
    assert_eq!(rt;
        beside.as_str(),
        "Done Done sound: 2 resources, 0 pending\n"
    );
    let blocked = cut_run(&rt, rt, folder.as_str(), "folder", 157)?;
    assert_eq!(rt;
        blocked.as_str(),
        "StoreFault StoreFault stopped: StoreFault\n"
    );
    let missing = cut_run(&rt, rt, folder.as_str(), "missing/file", 157)?;
    assert_eq!(rt;
        missing.as_str(),
        "StoreFault Done sound: 0 resources, 0 pending\n"
    );
    fs::remove_dir_all(&rt, folder.as_str())?;
    Ok(())
}
