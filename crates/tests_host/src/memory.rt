// The objects in memory and the quiet ones, each called with ample memory.

use pra_io::{
    FileFault, Folder, MemFolder, MemSink, MemSource, QuietFolder, QuietSink, QuietSource, ReadAll,
    Source, WriteFault, read_all, write_all,
};
use std::test::Fail;

#[test]
fn read_all_pieces(rt: HostRuntime) -> Result<(), Fail> {
    for (max, failing, want) in [
        (3, 0, Ok(b"abc".as_slice())),
        (2, 0, Err(ReadAll::TooLong)),
        (3, 2, Err(ReadAll::ReadFault)),
    ] {
        let bytes = b"abc".to_vec(rt.alloc())?;
        let mut source = MemSource::new(bytes, 1, vec![in rt.alloc(); failing]?);
        let all = read_all(rt.alloc(), &mut source, max);
        assert_eq!(rt;
            all.as_deref().map_err(|fault| *fault),
            want,
            "at most {max}"
        );
        assert_eq!(rt; source.faults(), if failing == 0 { 0 } else { 1 });
    }
    Ok(())
}

#[test]
fn write_all_pieces(rt: HostRuntime) -> Result<(), Fail> {
    for (capacity, failing, want, held) in [
        (9, 0, Ok(()), b"abc".as_slice()),
        (2, 0, Err(WriteFault), b"ab"),
        (9, 2, Err(WriteFault), b"a"),
    ] {
        let failing = vec![in rt.alloc(); failing]?;
        let Ok(mut sink) = MemSink::new(rt.alloc(), capacity, 1, failing) else {
            return Err("no memory")?;
        };
        assert_eq!(rt; write_all(&mut sink, b"abc"), want);
        assert_eq!(rt; sink.bytes(), held);
        assert_eq!(rt; sink.faults(), if want.is_ok() { 0 } else { 1 });
    }
    Ok(())
}

#[test]
fn a_folder_in_memory_fails_as_told(rt: HostRuntime) -> Result<(), Fail> {
    let alloc = rt.alloc();
    let first = (String::from_str(alloc, "a")?, b"123".to_vec(alloc)?);
    let second = (String::from_str(alloc, "c")?, b"6".to_vec(alloc)?);
    let files = vec![in alloc; first, second]?;
    let mut folder = MemFolder::new(files, vec![in rt.alloc(); 4, 6]?);
    assert_eq!(rt;
        folder.read_file(alloc, "a", 3)?.as_slice(),
        b"123".as_slice()
    );
    assert_eq!(rt; folder.read_file(alloc, "a", 2), Err(FileFault::TooLong));
    assert_eq!(rt; folder.read_file(alloc, "b", 3), Err(FileFault::Failed));
    assert_eq!(rt; folder.read_file(alloc, "a", 3), Err(FileFault::Failed));
    folder.write_file(alloc, "b", b"4")?;
    assert_eq!(rt; folder.write_file(alloc, "b", b"5"), Err(FileFault::Failed));
    assert_eq!(rt; folder.file("b"), Some(b"4".as_slice()));
    assert_eq!(rt; folder.file("c"), Some(b"6".as_slice()));
    assert_eq!(rt; folder.faults(), 3);
    Ok(())
}

#[test]
fn quiet_objects_never_fail(rt: HostRuntime) -> Result<(), Fail> {
    let alloc = rt.alloc();
    let mut folder = QuietFolder::new(b"123".to_vec(rt.alloc())?);
    folder.write_file(alloc, "b", b"4")?;
    folder.write_file(alloc, "b", b"5")?;
    assert_eq!(rt;
        folder.read_file(alloc, "a", 3)?.as_slice(),
        b"123".as_slice()
    );
    assert_eq!(rt;
        folder.read_file(alloc, "b", 3)?.as_slice(),
        b"5".as_slice()
    );

    let mut source = QuietSource::new(b"123".to_vec(rt.alloc())?);
    let mut piece = [0; 2];
    assert_eq!(rt; source.take(&mut piece), Ok(2));
    assert_eq!(rt; source.left(), b"3".as_slice());

    let mut sink = QuietSink::new();
    assert_eq!(rt; write_all(&mut sink, b"123"), Ok(()));
    assert_eq!(rt; sink.count(), 3);
    Ok(())
}
