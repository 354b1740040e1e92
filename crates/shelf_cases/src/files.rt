use aug_base::{FileShelf, Shelf, ShelfErr};
use item_types::Bytes;
use std::test::Fail;
use std::{env, fs, process};

fn holds(read: Result<Bytes, ShelfErr>, want: &[u8]) -> bool {
    match read {
        Ok(bytes) => bytes.as_slice() == want,
        Err(_) => false,
    }
}

#[test]
fn replaces_files_whole_and_makes_folders(rt: HostRuntime) -> Result<(), Fail> {
    let alloc = rt.alloc();
    let temporary = env::temp_dir(&rt)?;
    let number = process::id(rt.process());
    let folder = format!(in alloc; "{}/aug-base-{number}", temporary.as_str())?;
    let name = format!(in alloc; "{folder}/one/two/file")?;
    let name = name.as_str();
    let mut shelf = FileShelf::new(rt);
    assert!(rt; matches!(shelf.read(alloc, name, 9), Err(ShelfErr::Failed)));
    assert!(rt; shelf.write(name, b"first and longer").is_ok());
    assert!(rt; shelf.write(name, b"second").is_ok());
    assert!(rt; holds(shelf.read(alloc, name, 9), b"second"));
    assert!(rt; holds(shelf.read(alloc, name, 3), b"sec"));
    assert!(rt; matches!(shelf.write(folder.as_str(), b"x"), Err(ShelfErr::Failed)));
    assert!(rt; matches!(shelf.read(alloc, folder.as_str(), 9), Err(ShelfErr::Failed)));
    fs::remove_file(&rt, name)?;
    fs::remove_dir(&rt, format!(in alloc; "{folder}/one/two")?.as_str())?;
    fs::remove_dir(&rt, format!(in alloc; "{folder}/one")?.as_str())?;
    fs::remove_dir(&rt, folder.as_str())?;
    assert!(rt; !fs::exists(&rt, format!(in alloc; "{folder}.0.part")?.as_str())?);
    Ok(())
}

/// A name in the folder for temporary files.
fn temporary(rt: HostRuntime, name: &str) -> Result<String, Fail> {
    let alloc = rt.alloc();
    let folder = env::temp_dir(&rt)?;
    let number = process::id(rt.process());
    Ok(format!(in alloc; "{}/aug-base-{number}-{name}", folder.as_str())?)
}

#[test]
fn keeps_100_000_bytes(rt: HostRuntime) -> Result<(), Fail> {
    let alloc = rt.alloc();
    let mut bytes = Vec::new(alloc);
    for number in 0..100_000u32 {
        bytes.push((number % 251) as u8)?;
    }
    let name = temporary(rt, "long")?;
    let mut shelf = FileShelf::new(rt);
    assert!(rt; shelf.write(name.as_str(), bytes.as_slice()).is_ok());
    assert!(rt; holds(shelf.read(alloc, name.as_str(), 200_000), bytes.as_slice()));
    bytes.truncate(70_000);
    assert!(rt; holds(shelf.read(alloc, name.as_str(), 70_000), bytes.as_slice()));
    fs::remove_file(&rt, name.as_str())?;
    Ok(())
}

#[test]
fn takes_over_what_a_stopped_run_left(rt: HostRuntime) -> Result<(), Fail> {
    let alloc = rt.alloc();
    let name = temporary(rt, "left")?;
    let left = format!(in alloc; "{name}.0.part")?;
    fs::write(&rt, left.as_str(), "of a run that was stopped")?;
    let mut shelf = FileShelf::new(rt);
    assert!(rt; shelf.write(name.as_str(), b"whole").is_ok());
    assert!(rt; holds(shelf.read(alloc, name.as_str(), 9), b"whole"));
    assert!(rt; !fs::exists(&rt, left.as_str())?);
    fs::create_dir(&rt, left.as_str())?;
    assert!(rt; shelf.write(name.as_str(), b"again").is_ok());
    assert!(rt; holds(shelf.read(alloc, name.as_str(), 9), b"again"));
    fs::remove_dir(&rt, left.as_str())?;
    fs::remove_file(&rt, name.as_str())?;
    Ok(())
}
