use pl_os::{ChildPipe, Children, FileStore, RandomIds, StandardOutput, own_pipe};
use pl_value::{OutOfMemory, Text, Words};
use pl_world::{Ids, Pipe, Sink, Spawner, Store};
use std::alloc::{AllocError, Global};
use std::os::unix::fs::{MetadataExt, PermissionsExt};
use std::process::Command;
use std::test::Fail;
use std::time::Duration;
use std::{env, fs, io, process, thread};

// A new folder of a test's own.
fn new_folder(rt: &HostRuntime, name: &str) -> Result<String, Fail> {
    let place = env::temp_dir(rt)?;
    let (place, number) = (place.as_str(), process::id(rt.process()));
    let folder = format!(in rt.alloc(); "{place}/pl_os_{name}_{number}")?;
    fs::create_dir(rt, folder.as_str())?;
    Ok(folder)
}

// What a store reads, and how many of its calls have failed.
fn reading(alloc: Global, store: &mut FileStore) -> Result<String, AllocError> {
    let content = store.read(alloc);
    format!(in alloc; "{content:?} {}", store.faults())
}

// Whether a replacement succeeds, and how many calls of the store have failed.
fn replacing(alloc: Global, store: &mut FileStore, bytes: &[u8]) -> (bool, u64) {
    let is_done = store.replace(alloc, bytes).is_ok();
    (is_done, store.faults())
}

fn mode_of(rt: &HostRuntime, path: &str) -> io::Result<u32> {
    Ok(fs::metadata(rt, path)?.permissions().mode() & 0o777)
}

fn set_mode(rt: &HostRuntime, path: &str, mode: u32) -> io::Result<()> {
    fs::set_permissions(rt, path, PermissionsExt::from_mode(mode))
}

#[test]
fn files_are_replaced_and_read(rt: HostRuntime) -> Result<(), Fail> {
    let alloc = rt.alloc();
    let folder = new_folder(&rt, "replaced")?;
    let path = format!(in alloc; "{folder}/state.json")?;
    let neighbour = format!(in alloc; "{path}.new")?;
    let mut store = FileStore::new(rt, path.as_str())?;
    assert_eq!(rt; reading(alloc, &mut store)?.as_str(), "Ok(None) 0");
    assert_eq!(rt; replacing(alloc, &mut store, b"a"), (true, 0));
    assert_eq!(rt; mode_of(&rt, path.as_str())?, 0o600);
    set_mode(&rt, path.as_str(), 0o640)?;
    fs::write(&rt, neighbour.as_str(), "left by an earlier program")?;
    assert_eq!(rt; replacing(alloc, &mut store, b"bc"), (true, 0));
    assert_eq!(rt; mode_of(&rt, path.as_str())?, 0o640);
    assert!(rt; !fs::exists(&rt, neighbour.as_str())?);
    let wanted = "Ok(Some(Bytes { bytes: [98, 99] })) 0";
    assert_eq!(rt; reading(alloc, &mut store)?.as_str(), wanted);
    fs::remove_dir_all(&rt, folder.as_str())?;
    Ok(())
}

// What stands in the way of a store: a folder in the file's place and in the neighbour's, a file that is
// too long, and a folder where nobody but root may write.
fn make_hindrances(rt: &HostRuntime, folder: &str) -> Result<(), Fail> {
    let alloc = rt.alloc();
    for name in ["folder", "crowded.new", "closed"] {
        fs::create_dir(rt, format!(in alloc; "{folder}/{name}")?.as_str())?;
    }
    let closed = format!(in alloc; "{folder}/closed")?;
    fs::write(rt, format!(in alloc; "{closed}/file")?.as_str(), "a")?;
    set_mode(rt, closed.as_str(), 0o500)?;
    let long = fs::create(rt, format!(in alloc; "{folder}/long")?.as_str())?;
    long.set_len(1_073_741_825)?;
    Ok(())
}

// What is read of a file of this name, whether it can be replaced, what is read then, and the faults.
fn hindered(rt: &HostRuntime, folder: &str, name: &str) -> Result<String, Fail> {
    let alloc = rt.alloc();
    let path = format!(in alloc; "{folder}/{name}")?;
    let mut store = FileStore::new(*rt, path.as_str())?;
    let before = reading(alloc, &mut store)?;
    let (is_done, faults) = replacing(alloc, &mut store, b"b");
    let after = reading(alloc, &mut store)?;
    Ok(format!(in alloc; "{before}, {is_done} {faults}, {after}")?)
}

#[test]
fn faults_of_files_are_counted(rt: HostRuntime) -> Result<(), Fail> {
    let folder = new_folder(&rt, "hindered")?;
    make_hindrances(&rt, folder.as_str())?;
    let is_root = fs::metadata(&rt, folder.as_str())?.uid() == 0;
    let written = "true 0, Ok(Some(Bytes { bytes: [98] })) 0";
    let refused = "false 1, Ok(Some(Bytes { bytes: [97] })) 1";
    let closed = format!(in rt.alloc();
        "Ok(Some(Bytes {{ bytes: [97] }})) 0, {}",
        if is_root { written } else { refused }
    )?;
    for (name, wanted) in [
        ("folder", "Err(Failed) 1, false 2, Err(Failed) 3"),
        ("missing/file", "Ok(None) 0, false 1, Ok(None) 1"),
        ("crowded", "Ok(None) 0, false 1, Ok(None) 1"),
        (
            "long",
            "Err(Failed) 1, true 1, Ok(Some(Bytes { bytes: [98] })) 1",
        ),
        ("closed/file", closed.as_str()),
    ] {
        assert_eq!(rt; hindered(&rt, folder.as_str(), name)?.as_str(), wanted);
    }
    set_mode(
        &rt,
        format!(in rt.alloc(); "{folder}/closed")?.as_str(),
        0o700,
    )?;
    fs::remove_dir_all(&rt, folder.as_str())?;
    Ok(())
}

fn words_of(alloc: Global, list: &[&str]) -> Result<Words, OutOfMemory> {
    let mut words = Words::new(alloc);
    for word in list {
        words.push(Text::from_str(alloc, word)?)?;
    }
    Ok(words)
}

// What comes of a pipe until it is this long or the input ends.
fn text_of(alloc: Global, pipe: &mut ChildPipe, length: usize) -> Result<String, Fail> {
    let mut text = String::new(alloc);
    let mut buffer = [0u8; 1];
    for _ in 0..1000 {
        if text.len() >= length || pipe.take(&mut buffer)? == 0 {
            break;
        }
        text.push(char::from(buffer[0]))?;
    }
    Ok(text)
}

// Gives a byte again and again, until that fails or a second has passed.
fn give_until_refused(rt: &HostRuntime, pipe: &mut ChildPipe) -> bool {
    for _ in 0..100 {
        if pipe.give(rt.alloc(), None, b"x").is_err() {
            return true;
        }
        thread::sleep(rt, Duration::from_millis(10));
    }
    false
}

#[test]
fn children_are_talked_to(rt: HostRuntime) -> Result<(), Fail> {
    let alloc = rt.alloc();
    let mut children = Children::new(rt);
    let mut echo = children.start(alloc, &words_of(alloc, &["/bin/cat"])?)?;
    let given = (
        echo.give(alloc, None, b"")?,
        echo.give(alloc, None, b"hello")?,
    );
    assert_eq!(rt;
        (given, text_of(alloc, &mut echo, 5)?.as_str()),
        ((0, 5), "hello")
    );
    assert_eq!(rt; (echo.faults(), echo.ends()), (0, 0));
    let words = words_of(alloc, &["sh", "-c", "echo \"$0|$1|\"", "a  b", ""])?;
    let mut short = children.start(alloc, &words)?;
    assert_eq!(rt; text_of(alloc, &mut short, 100)?.as_str(), "a  b||\n");
    assert!(rt; give_until_refused(&rt, &mut short));
    assert_eq!(rt; (short.faults(), short.ends()), (1, 1));
    assert_eq!(rt; (children.started().len(), children.faults()), (2, 0));
    children.finish((echo, short));
    Ok(())
}

#[test]
fn hosts_have_two_halves(rt: HostRuntime) -> Result<(), Fail> {
    let alloc = rt.alloc();
    let mut children = Children::new(rt);
    let (mut reading, mut writing) = children.start_host(alloc, &words_of(alloc, &["cat"])?)?;
    assert_eq!(rt; writing.give(alloc, None, b"host")?, 4);
    assert_eq!(rt; text_of(alloc, &mut reading, 4)?.as_str(), "host");
    assert!(rt; reading.give(alloc, None, b"x").is_err());
    assert!(rt; writing.take(&mut [0u8; 1]).is_err());
    drop(writing);
    assert_eq!(rt; text_of(alloc, &mut reading, 1)?.as_str(), "");
    assert_eq!(rt; (reading.faults(), reading.ends()), (1, 1));
    children.finish(reading);
    Ok(())
}

#[test]
fn programs_that_are_missing_are_faults(rt: HostRuntime) -> Result<(), Fail> {
    let alloc = rt.alloc();
    let mut children = Children::new(rt);
    for list in [
        ["/missing/program"].as_slice(),
        &["no-such-program-here"],
        &["/"],
        &[""],
        &[],
    ] {
        assert!(rt; children.start(alloc, &words_of(alloc, list)?).is_err());
    }
    assert_eq!(rt; (children.started().len(), children.faults()), (0, 5));
    children.finish(());
    Ok(())
}

// Whether there is a process of this number, be it one that nobody has waited for.
fn is_there(rt: &HostRuntime, number: &str) -> Result<bool, Fail> {
    let script = format!(in rt.alloc(); "kill -0 {number} 2>/dev/null")?;
    let mut command = Command::new(rt.alloc(), "sh")?;
    command.arg("-c")?.arg(script.as_str())?;
    Ok(command.status(rt)?.success())
}

#[test]
fn no_child_is_left(rt: HostRuntime) -> Result<(), Fail> {
    let alloc = rt.alloc();
    let mut children = Children::new(rt);
    let (mut pipes, mut numbers) = (Vec::new(alloc), Vec::new(alloc));
    for script in ["echo $$", "echo $$; exec sleep 60", "echo $$; exec cat"] {
        let mut pipe = children.start(alloc, &words_of(alloc, &["sh", "-c", script])?)?;
        let number = line_of(alloc, &mut pipe)?;
        assert!(rt; is_there(&rt, number.as_str())?);
        pipes.push(pipe)?;
        numbers.push(number)?;
    }
    children.finish(pipes);
    for number in &numbers {
        assert!(rt; !is_there(&rt, number.as_str())?);
    }
    Ok(())
}

// The first line that comes of a pipe.
fn line_of(alloc: Global, pipe: &mut ChildPipe) -> Result<String, Fail> {
    let mut line = String::new(alloc);
    for _ in 0..100 {
        let letter = text_of(alloc, pipe, 1)?;
        if letter.as_str() == "\n" {
            break;
        }
        line.push_str(letter.as_str())?;
    }
    Ok(line)
}

// Whether a write of no bytes succeeds.
fn writes_nothing<W: Sink>(alloc: Global, sink: &mut W) -> bool {
    sink.write(alloc, b"").is_ok()
}

fn two_draws<I: Ids>(ids: &mut I) -> (u128, u128) {
    (ids.draw(), ids.draw())
}

#[test]
fn own_streams_and_ids(rt: HostRuntime) -> Result<(), Fail> {
    let alloc = rt.alloc();
    let (mut output, mut pipe) = (StandardOutput::new(rt), own_pipe(rt));
    assert!(rt; writes_nothing(alloc, &mut output));
    assert_eq!(rt;
        (pipe.give(alloc, None, b"")?, output.faults(), pipe.faults()),
        (0, 0, 0)
    );
    let (mut ids, mut others) = (RandomIds::new(&rt)?, RandomIds::new(&rt)?);
    let (first, second) = two_draws(&mut ids);
    assert_eq!(rt; second, first.wrapping_add(1));
    assert_ne!(rt; others.draw(), first);
    Ok(())
}
