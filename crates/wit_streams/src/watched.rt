//! A reader or a writer that remembers whether a call of it has failed, and whether it has told its end.
ghost use Rattle.std.specs.Prelude.{◌≡◌, ◌||◌, is_err, length, false};
ghost use Rattle.std.specs.Io.{ReadsAtMost, WritesAtMost};
ghost use Rattle.std.specs.Io.KnownBytes.{ReadConsumes, WriteAppends, Keeps};
ghost use Rattle.wit_streams.specs.Watched.{read_ends, write_fails};

use std::io;
use std::io::{Read, Write};

/// A reader or a writer, to which its calls are passed on, whether one of them has failed, and whether one told the
/// end of what is read.
#[derive(Drop)]
pub struct Watched<T> {
    inner: T,
    failed: bool,
    ended: bool,
}

impl<T> Watched<T> {
    /// Watches a reader or a writer from here on.
    pub fn new(inner: T) -> Watched<T>
        ensures inner { result.inner ≡ inner }
        ensures failed { result.failed ≡ false }
        ensures ended { result.ended ≡ false }
    {
        Watched {
            inner,
            failed: false,
            ended: false,
        }
    }

    /// The reader or the writer itself.
    pub fn into_inner(self) -> T
        ensures { result ≡ self.inner }
    {
        self.inner
    }

    /// True exactly from the first call on that answered an error or, for a write of some bytes, took
    /// none.
    pub fn failed(&self) -> bool
        ensures { result ≡ self.now.failed }
    {
        self.failed
    }

    /// True exactly from the first read on that gave nothing into a buffer with room: the reader is at its end.
    pub fn ended(&self) -> bool
        ensures { result ≡ self.now.ended }
    {
        self.ended
    }
}

impl<R: Read> Read for Watched<R> {
    ghost remaining = { λ w. R.remaining w.inner };

    fn read(&mut self, buf: &mut [u8]) -> io::Result<usize>
        ensures bound { ReadsAtMost result buf.new }
        ensures bytes { ReadConsumes (R.remaining self.old.inner)
            (R.remaining self.new.inner) result buf.new }
        ensures failed { self.new.failed ≡ (self.old.failed || is_err result) }
        ensures ended { self.new.ended ≡ (self.old.ended || read_ends result (length buf.old)) }
    {
        let has_room = !buf.is_empty();
        let result = self.inner.read(buf);
        match &result {
            Ok(0) => {
                if has_room {
                    self.ended = true;
                }
            }
            Ok(_) => {}
            Err(_) => self.failed = true,
        }
        result
    }
}

impl<W: Write> Write for Watched<W> {
    ghost contents = { λ w. W.contents w.inner };

    fn write(&mut self, buf: &[u8]) -> io::Result<usize>
        ensures bound { WritesAtMost result buf.now }
        ensures bytes { WriteAppends (W.contents self.old.inner) (W.contents self.new.inner) result
            buf.now }
        ensures failed { self.new.failed
            ≡ (self.old.failed || write_fails result (length buf.now)) }
        ensures ended { self.new.ended ≡ self.old.ended }
    {
        let result = self.inner.write(buf);
        match &result {
            Ok(0) => {
                if !buf.is_empty() {
                    self.failed = true;
                }
            }
            Ok(_) => {}
            Err(_) => self.failed = true,
        }
        result
    }

    fn flush(&mut self) -> io::Result<()>
        ensures bytes { Keeps (W.contents self.old.inner) (W.contents self.new.inner) }
        ensures failed { self.new.failed ≡ (self.old.failed || is_err result) }
        ensures ended { self.new.ended ≡ self.old.ended }
    {
        let result = self.inner.flush();
        if result.is_err() {
            self.failed = true;
        }
        result
    }
}
