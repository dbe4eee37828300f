// Devices of memory, where there is memory enough.
use rail_io::{Fetched, Journal, JournalOpened, MapShelf, MemoryJournal, Shelf};
use std::test::Fail;

/// A shelf gives the file that was put there.
#[test]
fn shelf_gives_its_files(rt: HostRuntime) -> Result<(), Fail> {
    let alloc = rt.alloc();
    let mut shelf = MapShelf::new(alloc, Vec::new(alloc));
    shelf.put(String::from_str(alloc, "one")?, b"text".to_vec(alloc)?)?;
    match shelf.fetch(alloc, "one", 4) {
        Fetched::Got(text) => assert!(rt; text.as_slice() == b"text".as_slice()),
        _ => panic!(rt; "no file"),
    }
    Ok(())
}

/// A journal gives what was put into it and what was added.
#[test]
fn journal_keeps_its_text(rt: HostRuntime) {
    let alloc = rt.alloc();
    let mut journal = MemoryJournal::new(alloc, Vec::new(alloc), Vec::new(alloc));
    assert!(rt; journal.replace(b"one "));
    assert!(rt; journal.append(b"two"));
    match journal.open(alloc, "j", 7) {
        JournalOpened::Text(text) => assert!(rt; text.as_slice() == b"one two".as_slice()),
        _ => panic!(rt; "no text"),
    }
}
