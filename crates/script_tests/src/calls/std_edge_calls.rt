//! What no clause says: how the adapters take a reader and a writer that fail in mid-stream.
use bridge_ports::{Failed, Sink, Source};
use std::io;
use std::io::{Error, ErrorKind, Read, Write};
use std_edge::StdStream;

/// What a stream does at one call.
#[derive(Clone, Copy)]
enum Act {
    Move(usize),
    Fail(ErrorKind),
}

/// A stream that goes through its acts in order, and fails with the last one from then on.
#[derive(Drop)]
struct Scripted<'a> {
    acts: &'a [Act; 4],
    calls: usize,
    bytes: u64,
}

impl Scripted<'_> {
    fn new(acts: &[Act; 4]) -> Scripted<'_> {
        Scripted {
            acts,
            calls: 0,
            bytes: 0,
        }
    }

    fn act(&mut self, most: usize) -> io::Result<usize> {
        let act = self.acts[self.calls.min(3)];
        self.calls = self.calls.saturating_add(1);
        match act {
            Act::Move(count) => {
                let count = count.min(most);
                self.bytes = self.bytes.saturating_add(count as u64);
                Ok(count)
            }
            Act::Fail(kind) => Err(Error::from(kind)),
        }
    }
}

impl Read for Scripted<'_> {
    fn read(&mut self, buf: &mut [u8]) -> io::Result<usize> {
        let count = self.act(buf.len())?;
        let count = count.min(buf.len());
        for byte in buf[..count].iter_mut() {
            *byte = b'x';
        }
        Ok(count)
    }
}

impl Write for Scripted<'_> {
    fn write(&mut self, buf: &[u8]) -> io::Result<usize> {
        let count = self.act(buf.len())?;
        Ok(count.min(buf.len()))
    }

    fn flush(&mut self) -> io::Result<()> {
        Ok(())
    }
}

const MID_STREAM: [Act; 4] = [
    Act::Move(2),
    Act::Fail(ErrorKind::Interrupted),
    Act::Move(1),
    Act::Fail(ErrorKind::BrokenPipe),
];

const NOTHING: [Act; 4] = [Act::Move(0); 4];

const INTERRUPTED: [Act; 4] = [Act::Fail(ErrorKind::Interrupted); 4];

/// What four reads give, one behind another.
fn four_reads<S: Source + Drop>(mut source: S, into: &mut [u8; 3]) -> [Result<u32, Failed>; 4] {
    [
        source.read(into),
        source.read(into),
        source.read(into),
        source.read(into),
    ]
}

/// What writes of these pieces give, one behind another.
fn four_writes<S: Sink>(sink: &mut S, pieces: &[&[u8]; 4]) -> [Result<u32, Failed>; 4] {
    [
        sink.write(pieces[0]),
        sink.write(pieces[1]),
        sink.write(pieces[2]),
        sink.write(pieces[3]),
    ]
}

#[test]
fn std_source_fills_what_it_read(rt: HostRuntime) {
    let mut into = [0u8; 8];
    let read = StdStream::new(Scripted::new(&MID_STREAM)).read(&mut into);
    assert_eq!(rt; (read, into), (Ok(2), *b"xx\0\0\0\0\0\0"));
}

// An interrupted read is made anew, but not without end.
#[test]
fn std_source_fails_in_mid_stream(rt: HostRuntime) {
    const ROWS: [(&[Act; 4], [Result<u32, Failed>; 4]); 3] = [
        (&MID_STREAM, [Ok(2), Ok(1), Err(Failed), Err(Failed)]),
        (&NOTHING, [Ok(0); 4]),
        (&INTERRUPTED, [Err(Failed); 4]),
    ];
    for (acts, expected) in &ROWS {
        let reads = four_reads(StdStream::new(Scripted::new(acts)), &mut [0; 3]);
        assert_eq!(rt; reads, *expected);
    }
}

/// What writes of these pieces to a stream of these acts give.
fn std_writes(acts: &[Act; 4], pieces: &[&[u8]; 4]) -> [Result<u32, Failed>; 4] {
    four_writes(&mut StdStream::new(Scripted::new(acts)), pieces)
}

// An interrupted write is made anew, but not without end; a writer that takes nothing fails.
#[test]
fn std_sink_fails_in_mid_stream(rt: HostRuntime) {
    const ROWS: [(&[Act; 4], [&[u8]; 4], [Result<u32, Failed>; 4]); 3] = [
        (
            &MID_STREAM,
            [b"abcd", b"cd", b"d", b"d"],
            [Ok(2), Ok(1), Err(Failed), Err(Failed)],
        ),
        (
            &NOTHING,
            [b"a", b"", b"a", b""],
            [Err(Failed), Ok(0), Err(Failed), Ok(0)],
        ),
        (&INTERRUPTED, [b"a", b"a", b"a", b"a"], [Err(Failed); 4]),
    ];
    for (acts, pieces, expected) in &ROWS {
        assert_eq!(rt; std_writes(acts, pieces), *expected);
    }
}
