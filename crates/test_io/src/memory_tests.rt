use sd_base::{Rows, Text};
use sd_io::{Failed, MemoryShelf, MemorySink, PutError, Shelf, TakeError, names_differ, send_all};
use std::alloc::Global;
use std::process::Abort;
use std::test::Fail;

fn shelf_of_one(alloc: Global, bytes: &[u8], failing: Vec<u64>) -> Result<MemoryShelf, Fail> {
    let mut files = Rows::new(alloc);
    let name = Text::of(alloc, "a.xml")?;
    files.push((name, Rows::from_vec(Vec::from_slice(alloc, bytes)?)))?;
    Ok(MemoryShelf::new(files, Rows::from_vec(failing))?)
}

#[test]
fn takes_a_file_of_exactly_the_limit(rt: HostRuntime) -> Result<(), Fail> {
    let alloc = rt.alloc();
    let mut shelf = shelf_of_one(alloc, b"abc", Vec::new(alloc))?;
    let taken = shelf.take(alloc, "a.xml", 3)?;
    assert_eq!(rt; taken.as_slice(), b"abc".as_slice());
    assert_eq!(rt; shelf.faults(), 0);
    Ok(())
}

#[test]
fn refuses_a_file_of_one_byte_more(rt: HostRuntime) -> Result<(), Fail> {
    let alloc = rt.alloc();
    let mut shelf = shelf_of_one(alloc, b"abc", Vec::new(alloc))?;
    assert!(rt; matches!(shelf.take(alloc, "a.xml", 2), Err(TakeError::TooLong)));
    assert_eq!(rt; shelf.faults(), 0);
    Ok(())
}

#[test]
fn a_missing_name_fails_without_a_fault(rt: HostRuntime) -> Result<(), Fail> {
    let alloc = rt.alloc();
    let mut shelf = shelf_of_one(alloc, b"abc", Vec::new(alloc))?;
    miss(&rt, alloc, &mut shelf)
}

fn miss(rt: &impl Abort, alloc: Global, shelf: &mut MemoryShelf) -> Result<(), Fail> {
    assert!(rt; matches!(shelf.take(alloc, "b.xml", 9), Err(TakeError::Failed)));
    assert_eq!(rt; shelf.faults(), 0);
    assert!(rt; shelf.file("b.xml").is_none());
    assert_eq!(rt; shelf.file("a.xml").ok_or("no file")?, b"abc".as_slice());
    Ok(())
}

#[test]
fn the_second_call_fails_with_a_fault(rt: HostRuntime) -> Result<(), Fail> {
    let alloc = rt.alloc();
    let mut shelf = shelf_of_one(alloc, b"abc", vec![in alloc; 2]?)?;
    assert!(rt; shelf.take(alloc, "a.xml", 3).is_ok());
    assert!(rt; matches!(shelf.take(alloc, "a.xml", 3), Err(TakeError::Failed)));
    assert_eq!(rt; shelf.faults(), 1);
    assert!(rt; shelf.take(alloc, "a.xml", 3).is_ok());
    Ok(())
}

#[test]
fn sends_all_in_pieces(rt: HostRuntime) -> Result<(), Fail> {
    let alloc = rt.alloc();
    let mut sink = MemorySink::new(alloc, 10, 4, Rows::new(alloc))?;
    assert!(rt; send_all(&mut sink, b"0123456789").is_ok());
    assert_eq!(rt; sink.sent(), b"0123456789".as_slice());
    assert_eq!(rt; sink.faults(), 0);
    Ok(())
}

#[test]
fn a_failing_send_leaves_a_first_part(rt: HostRuntime) -> Result<(), Fail> {
    let alloc = rt.alloc();
    let mut sink = MemorySink::new(alloc, 10, 4, Rows::from_vec(vec![in alloc; 2]?))?;
    assert!(rt; matches!(send_all(&mut sink, b"0123456789"), Err(Failed)));
    assert_eq!(rt; sink.sent(), b"0123".as_slice());
    assert_eq!(rt; sink.faults(), 1);
    Ok(())
}

#[test]
fn a_full_sink_fails(rt: HostRuntime) -> Result<(), Fail> {
    let alloc = rt.alloc();
    let mut sink = MemorySink::new(alloc, 3, 2, Rows::new(alloc))?;
    assert!(rt; matches!(send_all(&mut sink, b"0123"), Err(Failed)));
    assert_eq!(rt; sink.sent(), b"012".as_slice());
    assert_eq!(rt; sink.faults(), 1);
    Ok(())
}

#[test]
fn a_put_file_is_taken_again(rt: HostRuntime) -> Result<(), Fail> {
    let alloc = rt.alloc();
    let mut shelf = shelf_of_one(alloc, b"abc", vec![in alloc; 3]?)?;
    put_and_take(&rt, alloc, &mut shelf)
}

fn put_and_take(rt: &impl Abort, alloc: Global, shelf: &mut MemoryShelf) -> Result<(), Fail> {
    assert!(rt; shelf.put(alloc, "a.xml", b"de").is_ok());
    assert!(rt; shelf.put(alloc, "b.xml", b"").is_ok());
    assert!(rt; matches!(shelf.put(alloc, "a.xml", b"f"), Err(PutError::Failed)));
    assert_eq!(rt; shelf.faults(), 1);
    assert_eq!(rt; shelf.take(alloc, "a.xml", 2)?.as_slice(), b"de".as_slice());
    assert_eq!(rt; shelf.file("b.xml").ok_or("no file")?, b"".as_slice());
    Ok(())
}

#[test]
fn two_files_of_one_name_are_seen(rt: HostRuntime) -> Result<(), Fail> {
    let alloc = rt.alloc();
    let mut files = Vec::new(alloc);
    for name in ["a", "b", "", "b"] {
        files.push((Text::of(alloc, name)?, Rows::new(alloc)))?;
    }
    assert_eq!(rt; files.len(), 4);
    assert!(rt; names_differ(&files[..3]));
    assert!(rt; !names_differ(files.as_slice()));
    Ok(())
}
