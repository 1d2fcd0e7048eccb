//! The replay of recorded answers over a reader and a writer that fail.
use cache_replay::run::run;
use std::io;
use std::io::{BufReader, Read, Write};
use std::test::Fail;

/// A reader of one byte at a time that fails at one call.
#[derive(Drop)]
struct Drip<'a> {
    rest: &'a [u8],
    calls: u32,
    fails_at: u32,
}

impl Read for Drip<'_> {
    fn read(&mut self, buf: &mut [u8]) -> io::Result<usize> {
        self.calls = self.calls.saturating_add(1);
        if self.calls == self.fails_at {
            return Err(io::Error::from(io::ErrorKind::Other));
        }
        let count = self.rest.len().min(buf.len()).min(1);
        let (front, rest) = self.rest.split_at(count);
        buf[..count].copy_from_slice(front);
        self.rest = rest;
        Ok(count)
    }
}

#[derive(Drop)]
struct Broken;

impl Write for Broken {
    fn write(&mut self, _buf: &[u8]) -> io::Result<usize> {
        Err(io::Error::from(io::ErrorKind::Other))
    }

    fn flush(&mut self) -> io::Result<()> {
        Ok(())
    }
}

#[test]
fn stops_where_a_read_fails(rt: HostRuntime) -> Result<(), Fail> {
    for fails_at in 1..8u32 {
        let drip = Drip {
            rest: b"{}\n{}\n",
            calls: 0,
            fails_at,
        };
        let mut reader = BufReader::new(rt.alloc(), drip)?;
        let mut writer = Vec::new(rt.alloc());
        let ended = run(rt.alloc(), &mut reader, &mut writer);
        assert!(rt; ended.is_err(), "at {fails_at}");
    }
    Ok(())
}

#[test]
fn stops_where_a_write_fails(rt: HostRuntime) {
    let mut reader = b"{}\n".as_slice();
    let ended = run(rt.alloc(), &mut reader, &mut Broken);
    assert!(rt; ended.is_err());
}
