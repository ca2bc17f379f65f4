//! Streams of std that fail once.

ghost use Rattle.std.specs.Prelude.{◌≡◌, IfOk, IfSome};

use crate::devices::{StrictSink, StrictSource};
use crate::faults::Ended;
use crate::printing::print_text;
use byte_device::{Failed, Reading, Sink, Source, Writing};
use heap_memory::{Heap, NoMemory};
use std::io::{self, Error, ErrorKind, Read, Write};

/// The result of the second call of a stream, if it differs from the others.
#[derive(Clone, Copy)]
pub enum Failing {
    Never,
    /// It moves no byte.
    Idle,
    Error(ErrorKind),
}

impl Failing {
    /// The failure that a word of a case names.
    pub fn of_word(word: &str) -> Option<Failing> {
        match word {
            "never" => Some(Failing::Never),
            "idle" => Some(Failing::Idle),
            "interrupted" => Some(Failing::Error(ErrorKind::Interrupted)),
            "other" => Some(Failing::Error(ErrorKind::Other)),
            _ => None,
        }
    }
}

// A stream that counts its calls.
#[derive(Drop)]
struct FailsOnce<S> {
    stream: S,
    failing: Failing,
    calls: u8,
}

impl<S> FailsOnce<S> {
    // How this call fails, if it does.
    fn failure(&mut self) -> Option<io::Result<usize>>
        ensures { IfSome result (λ failed. IfOk failed (λ n. n ≡ 0)) }
    {
        self.calls = self.calls.saturating_add(1);
        match self.failing {
            _ if self.calls != 2 => None,
            Failing::Never => None,
            Failing::Idle => Some(Ok(0)),
            Failing::Error(kind) => Some(Err(Error::from(kind))),
        }
    }
}

impl<R: Read> Read for FailsOnce<R> {
    fn read(&mut self, buf: &mut [u8]) -> io::Result<usize> {
        match self.failure() {
            Some(failed) => failed,
            None => self.stream.read(buf),
        }
    }
}

impl<W: Write> Write for FailsOnce<W> {
    fn write(&mut self, buf: &[u8]) -> io::Result<usize> {
        match self.failure() {
            Some(failed) => failed,
            None => self.stream.write(buf),
        }
    }

    fn flush(&mut self) -> io::Result<()> {
        self.stream.flush()
    }
}

// The number of calls to a stream.
const CALLS: usize = 4;

/// Prints the results of four pulls of `size` bytes from a reader of std over a file.
pub fn print_reading(file: &[u8], failing: Failing, size: usize, printed: &mut String) -> Ended {
    let mut reader = FailsOnce {
        stream: file,
        failing,
        calls: 0,
    };
    let mut piece = Vec::new(*printed.allocator());
    piece.resize(size, 0u8)?;
    let mut device = Reading::new(&mut reader);
    for _ in 0..CALLS {
        print_moved(device.pull(&mut piece), printed)?;
    }
    Ok(writeln!(printed, "{} calls", reader.calls)?)
}

/// Prints the results of pushing a file in pieces of `size` bytes to a writer of std, and the bytes in it afterwards.
pub fn print_writing(file: &[u8], failing: Failing, size: usize, printed: &mut String) -> Ended {
    let mut writer = FailsOnce {
        stream: Vec::new(*printed.allocator()),
        failing,
        calls: 0,
    };
    let mut device = Writing::new(&mut writer);
    for piece in file.chunks(size.max(1)) {
        print_moved(device.push(piece), printed)?;
    }
    writeln!(printed, "{} calls", writer.calls)?;
    Ok(print_text(&writer.stream, printed)?)
}

/// Prints the results of the strict devices: of pulls from a file, also after its end and for no bytes, and of pushes,
/// also of no bytes.
pub fn print_strict_devices(file: &[u8], printed: &mut String) -> Ended {
    let mut piece = [0u8; 8];
    let mut source = StrictSource::new(file, usize::MAX, usize::MAX);
    for _ in 0..CALLS {
        print_moved(source.pull(&mut piece), printed)?;
    }
    let mut source = StrictSource::new(file, usize::MAX, usize::MAX);
    print_moved(source.pull(&mut piece[..0]), printed)?;
    let mut sink = StrictSink::new(Heap::new(*printed.allocator())?, usize::MAX);
    print_moved(sink.push(&[]), printed)?;
    Ok(print_moved(sink.push(file), printed)?)
}

fn print_moved(moved: Result<usize, Failed>, printed: &mut String) -> Result<(), NoMemory> {
    match moved {
        Ok(n) => writeln!(printed, "moved {n}"),
        Err(Failed) => writeln!(printed, "failed"),
    }
}
