// The host's objects, over streams and files of the tests' own and over real files.

use crate::fake_files::FakeFiles;
use crate::fake_streams::{Answer, FakeReader, FakeWriter};
use pra_io::{
    FileFault, Folder, HostFolder, HostSink, HostSource, ReadAll, WriteFault, read_all, write_all,
};
use std::cell::Cell;
use std::fs;
use std::os::unix::fs::symlink;
use std::test::Fail;

const ONE: Answer = Answer::AtMost(1);

const INTERRUPTED: Answer = Answer::Interrupted;

const FAILED: Answer = Answer::Failed;

#[test]
fn an_error_is_not_the_end_of_the_input(rt: HostRuntime) -> Result<(), Fail> {
    let answers: [&[Answer]; 4] = [
        &[FAILED],
        &[ONE, FAILED],
        &[ONE, ONE, FAILED],
        &[ONE, ONE, ONE, FAILED],
    ];
    for answers in answers {
        let reader = FakeReader {
            bytes: b"abc",
            answers,
        };
        let mut source = HostSource::new(reader);
        let all = read_all(rt.alloc(), &mut source, 9);
        assert_eq!(rt; all, Err(ReadAll::ReadFault));
        assert_eq!(rt; source.faults(), 1);
    }
    Ok(())
}

#[test]
fn short_and_interrupted_reads_go_on(rt: HostRuntime) -> Result<(), Fail> {
    let reader = FakeReader {
        bytes: b"abc",
        answers: &[INTERRUPTED, ONE, INTERRUPTED, INTERRUPTED, ONE],
    };
    let mut source = HostSource::new(reader);
    let all = read_all(rt.alloc(), &mut source, 3);
    assert_eq!(rt;
        all.as_deref().map_err(|fault| *fault),
        Ok(b"abc".as_slice())
    );
    assert_eq!(rt; source.faults(), 0);
    Ok(())
}

#[test]
fn a_write_that_fails_or_takes_nothing_is_a_fault(rt: HostRuntime) -> Result<(), Fail> {
    let answers: [(&[Answer], &[u8]); 5] = [
        (&[FAILED], b""),
        (&[ONE, FAILED], b"a"),
        (&[ONE, ONE, FAILED], b"ab"),
        (&[Answer::AtMost(0)], b""),
        (&[INTERRUPTED, ONE, Answer::AtMost(0)], b"a"),
    ];
    for (answers, taken) in answers {
        let mut writer = FakeWriter {
            taken: Vec::new(rt.alloc()),
            answers,
        };
        let mut sink = HostSink::new(&mut writer);
        assert_eq!(rt; write_all(&mut sink, b"abc"), Err(WriteFault));
        assert_eq!(rt; sink.faults(), 1);
        assert_eq!(rt; writer.taken.as_slice(), taken);
    }
    Ok(())
}

#[test]
fn short_and_interrupted_writes_go_on(rt: HostRuntime) -> Result<(), Fail> {
    let mut writer = FakeWriter {
        taken: Vec::new(rt.alloc()),
        answers: &[ONE, INTERRUPTED, INTERRUPTED, ONE],
    };
    let mut sink = HostSink::new(&mut writer);
    assert_eq!(rt; write_all(&mut sink, b"abc"), Ok(()));
    assert_eq!(rt; sink.faults(), 0);
    assert_eq!(rt; writer.taken.as_slice(), b"abc".as_slice());
    Ok(())
}

#[test]
fn a_file_is_read_whole_or_not_at_all(rt: HostRuntime) -> Result<(), Fail> {
    let written = Cell::new(0);
    let cases: [(&[Answer], Result<&[u8], FileFault>); 4] = [
        (&[ONE, INTERRUPTED, ONE], Ok(b"abc")),
        (&[FAILED], Err(FileFault::Failed)),
        (&[ONE, ONE, FAILED], Err(FileFault::Failed)),
        (&[ONE, ONE, ONE, FAILED], Err(FileFault::Failed)),
    ];
    for (reads, want) in cases {
        let files = FakeFiles {
            told: &[],
            bytes: b"abc",
            reads,
            writes: &[],
            written: &written,
        };
        let mut folder = HostFolder::new(rt.alloc(), &files);
        let read = folder.read_file(rt.alloc(), "a", 3);
        assert_eq!(rt; read.as_deref().map_err(|fault| *fault), want);
        assert_eq!(rt; folder.faults(), if want.is_ok() { 0 } else { 1 });
    }
    Ok(())
}

#[test]
fn a_file_that_is_written_in_part_is_a_fault(rt: HostRuntime) -> Result<(), Fail> {
    let cases: [(&[Answer], Result<(), FileFault>, usize); 5] = [
        (&[ONE, INTERRUPTED, ONE], Ok(()), 3),
        (&[FAILED], Err(FileFault::Failed), 0),
        (&[ONE, FAILED], Err(FileFault::Failed), 1),
        (&[ONE, ONE, FAILED], Err(FileFault::Failed), 2),
        (&[ONE, Answer::AtMost(0)], Err(FileFault::Failed), 1),
    ];
    for (writes, want, count) in cases {
        let written = Cell::new(0);
        let files = FakeFiles {
            told: &[],
            bytes: b"",
            reads: &[],
            writes,
            written: &written,
        };
        let mut folder = HostFolder::new(rt.alloc(), &files);
        assert_eq!(rt; folder.write_file(rt.alloc(), "a", b"abc"), want);
        assert_eq!(rt; folder.faults(), if want.is_ok() { 0 } else { 1 });
        assert_eq!(rt; written.get(), count);
    }
    Ok(())
}

#[test]
fn a_host_folder_reads_what_it_wrote(rt: HostRuntime) -> Result<(), Fail> {
    const NAME: &str = "pra_io_test_file";
    let alloc = rt.alloc();
    let mut folder = HostFolder::new(rt.alloc(), &rt);
    folder.write_file(alloc, NAME, b"45")?;
    assert_eq!(rt;
        folder.write_file(alloc, NAME, b"123"),
        Err(FileFault::Failed)
    );
    assert_eq!(rt;
        folder.read_file(alloc, NAME, 2)?.as_slice(),
        b"45".as_slice()
    );
    assert_eq!(rt; folder.read_file(alloc, NAME, 1), Err(FileFault::TooLong));
    assert_eq!(rt; folder.faults(), 1);
    fs::remove_file(&rt, NAME)?;
    assert_eq!(rt; folder.read_file(alloc, NAME, 2), Err(FileFault::Failed));
    assert_eq!(rt; folder.faults(), 2);
    Ok(())
}

#[test]
fn a_file_that_was_read_is_never_written_over(rt: HostRuntime) -> Result<(), Fail> {
    const NAME: &str = "pra_io_test_source";
    const LINK: &str = "pra_io_test_link";
    let alloc = rt.alloc();
    let mut folder = HostFolder::new(rt.alloc(), &rt);
    folder.write_file(alloc, NAME, b"source")?;
    fs::hard_link(&rt, NAME, LINK)?;
    assert_eq!(rt;
        folder.read_file(alloc, LINK, 9)?.as_slice(),
        b"source".as_slice()
    );
    for name in [NAME, LINK, "./pra_io_test_source"] {
        assert_eq!(rt;
            folder.write_file(alloc, name, b"image"),
            Err(FileFault::Failed)
        );
    }
    assert_eq!(rt; folder.faults(), 3);
    assert_eq!(rt;
        folder.read_file(alloc, NAME, 9)?.as_slice(),
        b"source".as_slice()
    );
    fs::remove_file(&rt, LINK)?;
    fs::remove_file(&rt, NAME)?;
    Ok(())
}

#[test]
fn a_file_that_may_be_the_input_is_never_written_over(rt: HostRuntime) -> Result<(), Fail> {
    const STREAMS: &str = "/proc/self/fd";
    const INPUT: &str = "/proc/self/fd/0";
    let cases: [(&[&str], Result<(), FileFault>); 4] = [
        (&["a"], Err(FileFault::Failed)),
        (&["a", STREAMS, INPUT], Err(FileFault::Failed)),
        (&["a", STREAMS], Ok(())),
        (&[], Ok(())),
    ];
    for (told, want) in cases {
        let written = Cell::new(0);
        let files = FakeFiles {
            told,
            bytes: b"",
            reads: &[],
            writes: &[],
            written: &written,
        };
        let mut folder = HostFolder::new(rt.alloc(), &files);
        assert_eq!(rt; folder.write_file(rt.alloc(), "a", b"abc"), want);
        assert_eq!(rt; written.get(), if want.is_ok() { 3 } else { 0 });
    }
    Ok(())
}

#[test]
fn a_file_is_replaced_and_not_written_over(rt: HostRuntime) -> Result<(), Fail> {
    const NAME: &str = "pra_io_test_image";
    const OLD: &str = "pra_io_test_old";
    const LINK: &str = "pra_io_test_image_link";
    const LEFT: &str = "pra_io_test_image.part0";
    let alloc = rt.alloc();
    for (name, bytes) in [(NAME, b"old".as_slice()), (LEFT, b"left")] {
        HostFolder::new(alloc, &rt).write_file(alloc, name, bytes)?;
    }
    fs::hard_link(&rt, NAME, OLD)?;
    symlink(&rt, NAME, LINK)?;
    HostFolder::new(alloc, &rt).write_file(alloc, LINK, b"new")?;
    let mut folder = HostFolder::new(alloc, &rt);
    for (name, bytes) in [(NAME, b"new".as_slice()), (OLD, b"old"), (LEFT, b"left")] {
        assert_eq!(rt; folder.read_file(alloc, name, 9)?.as_slice(), bytes);
    }
    for name in [NAME, OLD, LINK, LEFT] {
        fs::remove_file(&rt, name)?;
    }
    Ok(())
}

#[test]
fn a_name_that_cannot_be_created_is_a_fault(rt: HostRuntime) -> Result<(), Fail> {
    let alloc = rt.alloc();
    let mut folder = HostFolder::new(rt.alloc(), &rt);
    let written = folder.write_file(alloc, "pra_io_no_folder/a", b"123");
    assert_eq!(rt; written, Err(FileFault::Failed));
    assert_eq!(rt; folder.faults(), 1);
    Ok(())
}
