use crate::slow_files::{SlowFiles, SlowOutput};
use crate::transfers::{read_whole, write_whole};
use crate::{
    DirShelf, Failed, FetchFault, MAX_FILE, MAX_STORES, Memory, MemoryShelf, MemorySink, OutSink,
    Shelf, Sink, names_differ,
};
use std::alloc::{AllocError, Global};
use std::cell::RefCell;
use std::fmt::Display;
use std::io::{Error, ErrorKind, Read, Result as IoResult, Write};
use std::test::Fail;
use std::{env, fs, process};

fn text(fetched: &Result<Vec<u8>, FetchFault>) -> &'static str {
    match fetched {
        Ok(_) => "Ok",
        Err(FetchFault::Failed) => "Failed",
        Err(FetchFault::TooLong) => "TooLong",
        Err(FetchFault::Memory) => "Memory",
    }
}

// Two files, whose second call fails, with room for 10 bytes.
#[test]
fn memory_shelf(rt: HostRuntime) -> Result<(), Fail> {
    let alloc = rt.alloc();
    let files = vec![in alloc;
        (
            String::from_str(alloc, "A.java")?,
            b"class A{}".to_vec(alloc)?
        ),
        (String::from_str(alloc, "B.java")?, b"".to_vec(alloc)?),
    ]?;
    assert!(rt; names_differ(files.as_slice()));
    let mut shelf = MemoryShelf::new(alloc, files, vec![in alloc; 2]?, 10)?;
    let first = shelf.fetch(alloc, "A.java");
    assert_eq!(rt; first.ok().as_deref(), Some(b"class A{}".as_slice()));
    assert_eq!(rt; text(&shelf.fetch(alloc, "A.java")), "Failed");
    assert_eq!(rt; text(&shelf.fetch(alloc, "C.java")), "Failed");
    assert!(rt; shelf.store("C", b"123").is_ok());
    assert!(rt; shelf.store("C.java", b"1").is_err());
    assert!(rt; shelf.store("D", b"12345").is_ok());
    assert!(rt; shelf.store("", b"1").is_err());
    assert_eq!(rt; shelf.bytes_of("C"), Some(b"123".as_slice()));
    assert_eq!(rt; shelf.bytes_of("D"), Some(b"12345".as_slice()));
    assert_eq!(rt; shelf.bytes_of("C.java"), None);
    assert_eq!(rt; text(&shelf.fetch(alloc, "B.java")), "Ok");
    Ok(())
}

#[test]
fn longest_file(rt: HostRuntime) -> Result<(), Fail> {
    let alloc = rt.alloc();
    let longest = MAX_FILE as usize;
    let files = vec![in alloc;
        (
            String::from_str(alloc, "fits")?,
            vec![in alloc; b' '; longest]?
        ),
        (
            String::from_str(alloc, "long")?,
            vec![in alloc; b' '; longest + 1]?
        ),
    ]?;
    assert!(rt; names_differ(files.as_slice()));
    let mut shelf = MemoryShelf::new(alloc, files, vec![in alloc]?, 0)?;
    assert_eq!(rt; text(&shelf.fetch(alloc, "fits")), "Ok");
    assert_eq!(rt; text(&shelf.fetch(alloc, "long")), "TooLong");
    Ok(())
}

#[test]
fn most_stores(rt: HostRuntime) -> Result<(), Fail> {
    let alloc = rt.alloc();
    let mut shelf = MemoryShelf::new(alloc, vec![in alloc]?, vec![in alloc]?, 2000)?;
    for _ in 0..MAX_STORES {
        assert!(rt; shelf.store("A", b"").is_ok());
    }
    assert!(rt; shelf.store("A", b"").is_err());
    assert_eq!(rt; shelf.bytes_of("A"), Some(b"".as_slice()));
    Ok(())
}

#[test]
fn memory_sink(rt: HostRuntime) -> Result<(), Fail> {
    let alloc = rt.alloc();
    let mut sink = MemorySink::new(alloc, vec![in alloc; 2]?, 5)?;
    assert!(rt; sink.put(b"123").is_ok());
    assert!(rt; sink.put(b"4").is_err());
    assert!(rt; sink.put(b"456").is_err());
    assert!(rt; sink.put(b"45").is_ok());
    assert_eq!(rt; sink.bytes(), b"12345".as_slice());
    Ok(())
}

fn blanks(alloc: Global, len: usize) -> Result<Vec<u8>, AllocError> {
    vec![in alloc; b' '; len]
}

const SIZES: [usize; 9] = [0, 1, 2, 255, 65_535, 65_536, 65_537, 100_001, 1_048_576];

// A file of its own in the folder for temporary files.
fn own_name(rt: HostRuntime, what: &str) -> Result<String, Fail> {
    let alloc = rt.alloc();
    let mut path = env::temp_dir(&rt)?;
    let id = process::id(rt.process());
    path.push(format!(in alloc; "jr_shelf_{id}_{what}.txt")?.as_str())?;
    let name = path.to_str().ok_or("the folder's name is no text")?;
    Ok(String::from_str(alloc, name)?)
}

// Whether so many bytes come back as they were stored.
fn comes_back<S: Shelf>(
    alloc: Global,
    shelf: &mut S,
    name: &str,
    len: usize,
) -> Result<bool, AllocError> {
    let bytes = blanks(alloc, len)?;
    if shelf.store(name, bytes.as_slice()).is_err() {
        return Ok(false);
    }
    match shelf.fetch(alloc, name) {
        Ok(fetched) => Ok(fetched.as_slice() == bytes.as_slice()),
        Err(_) => Ok(false),
    }
}

#[test]
fn real_files_of_each_size(rt: HostRuntime) -> Result<(), Fail> {
    let alloc = rt.alloc();
    let name = own_name(rt, "size")?;
    let mut shelf = DirShelf::new(rt);
    let mut lost = None;
    for len in SIZES {
        if !comes_back(alloc, &mut shelf, name.as_str(), len)? {
            lost = Some(len);
        }
    }
    let long = blanks(alloc, MAX_FILE as usize + 1)?;
    let stored_long = shelf.store(name.as_str(), long.as_slice()).is_ok();
    let fetched_long = shelf.fetch(alloc, name.as_str());
    fs::remove_file(&rt, name.as_str())?;
    assert_eq!(rt; lost, None);
    assert!(rt; stored_long);
    assert_eq!(rt; text(&fetched_long), "TooLong");
    Ok(())
}

// No file has these names: one that is gone, an empty one, one in no folder, a folder's, and one
// that is longer than a system takes.
#[test]
fn names_of_no_real_file(rt: HostRuntime) -> Result<(), Fail> {
    let alloc = rt.alloc();
    let gone = own_name(rt, "gone")?;
    let in_no_folder = format!(in alloc; "{gone}/A.java")?;
    let mut long = own_name(rt, "long")?;
    for _ in 0..70_000 {
        long.push('x')?;
    }
    let mut shelf = DirShelf::new(rt);
    assert_eq!(rt; text(&shelf.fetch(alloc, gone.as_str())), "Failed");
    for name in ["", in_no_folder.as_str(), "/", long.as_str()] {
        assert_eq!(rt; text(&shelf.fetch(alloc, name)), "Failed", "{name}");
        assert!(rt; shelf.store(name, b"x").is_err(), "{name}");
    }
    Ok(())
}

// Files and output that move a byte at a time.
#[test]
fn slow_pipes(rt: HostRuntime) -> Result<(), Fail> {
    let alloc = rt.alloc();
    let mut shelf = DirShelf::new(SlowFiles);
    for (name, len) in [
        ("0", 0),
        ("1", 1),
        ("300", 300),
        ("65537", 65_537),
        ("1048576", 1_048_576),
    ] {
        let fetched = shelf.fetch(alloc, name);
        assert_eq!(rt; fetched.ok().map(|bytes| bytes.len()), Some(len), "{name}");
        assert!(rt;
            shelf.store(name, blanks(alloc, len)?.as_slice()).is_ok(),
            "{name}"
        );
        let output = RefCell::new(Vec::new(alloc));
        let put = OutSink::new(SlowOutput(&output)).put(blanks(alloc, len)?.as_slice());
        assert!(rt; put.is_ok(), "{name}");
        let taken = output.into_inner();
        assert!(rt;
            taken.as_slice() == blanks(alloc, len)?.as_slice(),
            "{name}"
        );
    }
    assert_eq!(rt; text(&shelf.fetch(alloc, "1048577")), "TooLong");
    assert_eq!(rt; text(&shelf.fetch(alloc, "A.java")), "Failed");
    Ok(())
}

#[test]
fn faults_as_texts(rt: HostRuntime) -> Result<(), Fail> {
    let alloc = rt.alloc();
    let table = [
        (
            FetchFault::Failed.to_string(alloc)?,
            "the file cannot be read",
        ),
        (
            FetchFault::TooLong.to_string(alloc)?,
            "the file is too long",
        ),
        (FetchFault::Memory.to_string(alloc)?, "out of memory"),
        (Failed.to_string(alloc)?, "the bytes cannot be written"),
        (Memory.to_string(alloc)?, "out of memory"),
    ];
    for (said, text) in &table {
        assert_eq!(rt; said.as_str(), *text);
    }
    Ok(())
}

#[test]
fn standard_output(rt: HostRuntime) {
    assert!(rt; OutSink::new(rt).put(b"").is_ok());
    assert!(rt; OutSink::new(rt).put(b"p").is_ok());
    assert!(rt; OutSink::new(rt.stderr()).put(b"put\n").is_ok());
    assert!(rt; OutSink::new(Closed).put(b"put\n").is_err());
}

// An output that was closed.
#[derive(Clone, Copy)]
struct Closed;

impl Print for Closed {
    fn print<D: Display + Drop>(&self, _value: D) -> IoResult<()> {
        self.write_all(b"")
    }

    fn println<D: Display + Drop>(&self, _value: D) -> IoResult<()> {
        self.write_all(b"")
    }

    fn write_all(&self, _bytes: &[u8]) -> IoResult<()> {
        Err(Error::from(ErrorKind::BrokenPipe))
    }
}

// What happens at each call, in turn: some bytes are moved, or a fault comes.
#[derive(Drop)]
struct Script<'a> {
    turns: &'a [Turn],
    moved: Vec<u8>,
}

#[derive(Clone, Copy)]
enum Turn {
    Moves(usize),
    Fails(ErrorKind),
}

impl Script<'_> {
    fn next(&mut self) -> Turn {
        match self.turns.split_first() {
            None => Turn::Moves(0),
            Some((turn, rest)) => {
                self.turns = rest;
                *turn
            }
        }
    }
}

impl Read for Script<'_> {
    fn read(&mut self, buf: &mut [u8]) -> IoResult<usize> {
        match self.next() {
            Turn::Moves(count) if count <= buf.len() => {
                buf[..count].fill(b'x');
                Ok(count)
            }
            Turn::Moves(_) => Ok(0),
            Turn::Fails(kind) => Err(Error::from(kind)),
        }
    }
}

impl Write for Script<'_> {
    fn write(&mut self, buf: &[u8]) -> IoResult<usize> {
        match self.next() {
            Turn::Moves(count) if count <= buf.len() => {
                self.moved.extend_from_slice(&buf[..count])?;
                Ok(count)
            }
            Turn::Moves(_) => Ok(0),
            Turn::Fails(kind) => Err(Error::from(kind)),
        }
    }

    fn flush(&mut self) -> IoResult<()> {
        Ok(())
    }
}

#[test]
fn interrupted_reads(rt: HostRuntime) -> Result<(), Fail> {
    let alloc = rt.alloc();
    let goes_on = [
        Turn::Moves(2),
        Turn::Fails(ErrorKind::Interrupted),
        Turn::Moves(1),
    ];
    let fails = [
        Turn::Moves(2),
        Turn::Fails(ErrorKind::NotFound),
        Turn::Moves(1),
    ];
    let no_memory = [Turn::Moves(2), Turn::Fails(ErrorKind::OutOfMemory)];
    for (turns, answer, faults) in [
        (goes_on.as_slice(), "Ok", 4),
        (fails.as_slice(), "Failed", 5),
        (no_memory.as_slice(), "Memory", 4),
    ] {
        let mut script = Script {
            turns,
            moved: Vec::new(alloc),
        };
        let mut counted = 4;
        let read = read_whole(&mut script, alloc, &mut counted);
        assert_eq!(rt; text(&read), answer);
        assert_eq!(rt; counted, faults, "{answer}");
        if let Ok(bytes) = read {
            assert_eq!(rt; bytes.as_slice(), b"xxx".as_slice());
        }
    }
    Ok(())
}

#[test]
fn interrupted_writes(rt: HostRuntime) -> Result<(), Fail> {
    let alloc = rt.alloc();
    let goes_on = [
        Turn::Moves(2),
        Turn::Fails(ErrorKind::Interrupted),
        Turn::Moves(1),
    ];
    let fails = [
        Turn::Moves(2),
        Turn::Fails(ErrorKind::OutOfMemory),
        Turn::Moves(1),
    ];
    let takes_nothing = [Turn::Moves(2), Turn::Moves(0), Turn::Moves(1)];
    for (turns, whole) in [(goes_on, true), (fails, false), (takes_nothing, false)] {
        let mut script = Script {
            turns: turns.as_slice(),
            moved: Vec::new(alloc),
        };
        let mut counted = 4;
        assert_eq!(rt;
            write_whole(&mut script, b"abc", &mut counted).is_ok(),
            whole
        );
        assert_eq!(rt; counted, if whole { 4 } else { 5 });
        assert_eq!(rt;
            script.moved.as_slice(),
            if whole {
                b"abc".as_slice()
            } else {
                b"ab".as_slice()
            }
        );
    }
    Ok(())
}
