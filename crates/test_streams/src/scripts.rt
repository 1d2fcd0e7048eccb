//! The run of a script over readers that stutter and never end, and writers that fail.
use cache_script::ends::{Sink, Source};
use cache_script::run::run;
use std::alloc::Global;
use std::io;
use std::io::{ErrorKind, Read, Write};
use std::process::Abort;
use std::test::Fail;

/// A reader of a few bytes at a time that fails at one call.
#[derive(Drop)]
struct Stutter<'a> {
    rest: &'a [u8],
    most: usize,
    calls: usize,
    fails_at: usize,
}

impl Read for Stutter<'_> {
    fn read(&mut self, buf: &mut [u8]) -> io::Result<usize> {
        self.calls = self.calls.saturating_add(1);
        if self.calls == self.fails_at {
            return Err(io::Error::from(ErrorKind::Interrupted));
        }
        let count = self.rest.len().min(self.most).min(buf.len());
        let (front, rest) = self.rest.split_at(count);
        buf[..count].copy_from_slice(front);
        self.rest = rest;
        Ok(count)
    }
}

impl Source for Stutter<'_> {
    fn read_some(&mut self, buf: &mut [u8]) -> io::Result<usize> {
        self.read(buf)
    }
}

/// A reader that never ends.
#[derive(Drop)]
struct Endless {
    calls: u32,
}

impl Read for Endless {
    fn read(&mut self, buf: &mut [u8]) -> io::Result<usize> {
        self.calls = self.calls.saturating_add(1);
        if buf.is_empty() {
            return Ok(0);
        }
        buf[0] = b' ';
        Ok(1)
    }
}

impl Source for Endless {
    fn read_some(&mut self, buf: &mut [u8]) -> io::Result<usize> {
        self.read(buf)
    }
}

const ROOM: usize = 160;

/// A writer of a few bytes at a time, into its own room, that fails at one call.
#[derive(Drop)]
struct Gate {
    room: [u8; ROOM],
    len: usize,
    most: usize,
    calls: usize,
    fails_at: usize,
    is_full: bool,
}

impl Gate {
    fn text(&self) -> &[u8] {
        &self.room[..self.len.min(ROOM)]
    }
}

impl Write for Gate {
    fn write(&mut self, buf: &[u8]) -> io::Result<usize> {
        self.calls = self.calls.saturating_add(1);
        if self.calls == self.fails_at {
            return if self.is_full {
                Ok(0)
            } else {
                Err(io::Error::from(ErrorKind::Interrupted))
            };
        }
        let len = self.len.min(ROOM);
        let count = buf.len().min(self.most).min(ROOM - len);
        let (front, _) = buf.split_at(count);
        self.room[len..len + count].copy_from_slice(front);
        self.len = len + count;
        Ok(count)
    }

    fn flush(&mut self) -> io::Result<()> {
        Ok(())
    }
}

impl Sink for Gate {
    fn write_some(&mut self, buf: &[u8]) -> io::Result<usize> {
        self.write(buf)
    }
}

/// A script with steps of every kind.
const SCRIPT: &str = concat!(
    r#"{"options":{"shared":true,"cache_heuristic":[1,10],"immutable_min_time_to_live":[86400,0],"#,
    r#""ignore_cargo_cult":false},"received":[1704067200,0],"request":{"uri":"/a","method":"GET","headers":[]},"#,
    r#""response":{"status":200,"headers":[["Cache-Control","max-age=10"]]},"steps":["#,
    r#"{"ask":{"uri":"/a","method":"GET","headers":[]},"at":[1704067205,500000000]},"restart","#,
    r#"{"ask":{"uri":"/a","method":"GET","headers":[]},"at":[1704067210,0]},"#,
    r#"{"receive":{"uri":"/a","method":"GET","headers":[]},"#,
    r#""response":{"status":304,"headers":[]},"at":[1704067210,0]},"#,
    r#"{"ask":{"uri":"/a","method":"GET","headers":[]},"at":[1704067219,0]},"#,
    r#"{"receive":{"uri":"/b","method":"GET","headers":[]},"#,
    r#""response":{"status":500,"headers":[]},"at":[1704067220,0]}]}"#,
);

const LINES: &[u8] = b"storable true ttl 10.000000000\n\
    fresh age 5\n\
    restarted\n\
    stale matches true\n\
    not-modified status 200\n\
    fresh age 9\n\
    modified status 500\n";

fn stuttering(text: &[u8], most: usize, fails_at: usize) -> Stutter<'_> {
    Stutter {
        rest: text,
        most,
        calls: 0,
        fails_at,
    }
}

fn open_gate(most: usize, fails_at: usize, is_full: bool) -> Gate {
    Gate {
        room: [0; ROOM],
        len: 0,
        most,
        calls: 0,
        fails_at,
        is_full,
    }
}

// Nothing is written. The exit status and a text report why.
fn is_no_script<R: Source>(rt: &impl Abort, alloc: Global, reader: &mut R) -> Result<(), Fail> {
    let mut writer = open_gate(ROOM, 0, false);
    match run(alloc, reader, &mut writer) {
        Ok(()) => assert!(rt; false, "not refused"),
        Err(e) => {
            assert_eq!(rt; e.status(), 2);
            let text = format!(in alloc; "{e}")?;
            assert_eq!(rt; text.as_str(), "script: not readable");
        }
    }
    assert_eq!(rt; writer.calls, 0);
    Ok(())
}

#[test]
fn reads_in_pieces(rt: HostRuntime) -> Result<(), Fail> {
    for most in 1..10usize {
        let mut reader = stuttering(SCRIPT.as_bytes(), most, 0);
        let mut writer = open_gate(most, 0, false);
        run(rt.alloc(), &mut reader, &mut writer)?;
        assert_eq!(rt; writer.text(), LINES);
    }
    Ok(())
}

#[test]
fn each_read_fails(rt: HostRuntime) -> Result<(), Fail> {
    // Each call reads one byte; the last one reads the end.
    let calls = SCRIPT.len().saturating_add(1);
    for fails_at in 1..=calls {
        let mut reader = stuttering(SCRIPT.as_bytes(), 1, fails_at);
        is_no_script(&rt, rt.alloc(), &mut reader)?;
        assert_eq!(rt; reader.calls, fails_at);
    }
    Ok(())
}

#[test]
fn reads_no_further_than_the_end(rt: HostRuntime) -> Result<(), Fail> {
    // Each call reads one byte and the last one the end, so the failing read would be after it.
    let calls = SCRIPT.len().saturating_add(1);
    let mut reader = stuttering(SCRIPT.as_bytes(), 1, calls.saturating_add(1));
    let mut writer = open_gate(ROOM, 0, false);
    run(rt.alloc(), &mut reader, &mut writer)?;
    assert_eq!(rt; writer.text(), LINES);
    assert_eq!(rt; reader.calls, calls);
    let mut reader = stuttering(b"{", 1, 3);
    is_no_script(&rt, rt.alloc(), &mut reader)?;
    assert_eq!(rt; reader.calls, 2);
    Ok(())
}

fn is_not_written(rt: &impl Abort, alloc: Global, writer: &mut Gate) -> Result<(), Fail> {
    let mut reader = SCRIPT.as_bytes();
    match run(alloc, &mut reader, writer) {
        Ok(()) => assert!(rt; false, "written"),
        Err(e) => {
            assert_eq!(rt; e.status(), 3);
            let text = format!(in alloc; "{e}")?;
            assert_eq!(rt; text.as_str(), "output: not written");
        }
    }
    Ok(())
}

#[test]
fn each_write_fails(rt: HostRuntime) -> Result<(), Fail> {
    for written in 0..LINES.len() {
        // Each call writes one byte; the last one fails.
        let calls = written.saturating_add(1);
        for is_full in [false, true] {
            let mut writer = open_gate(1, calls, is_full);
            is_not_written(&rt, rt.alloc(), &mut writer)?;
            assert_eq!(rt; writer.text(), &LINES[..written]);
            assert_eq!(rt; writer.calls, calls);
        }
    }
    Ok(())
}

#[test]
fn stops_an_endless_reader(rt: HostRuntime) -> Result<(), Fail> {
    let mut reader = Endless { calls: 0 };
    is_no_script(&rt, rt.alloc(), &mut reader)?;
    assert_eq!(rt; reader.calls, 16_777_217);
    Ok(())
}
