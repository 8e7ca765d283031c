//! A reader or a writer, watched for failures and for the end.

ghost use Rattle.std.specs.Prelude.{◌≡◌, false};

use std::io;
use std::io::{Read, Write};

/// A reader or a writer that passes every call on and keeps what the calls told.
#[derive(Drop)]
pub struct Watched<T> {
    inner: T,
    failed: bool,
    called_again: bool,
    ended: bool,
    read_calls: u64,
    bytes_given: u64,
}

impl<T> Watched<T> {
    ghost use Rattle.program_streams.specs.Watched.{watched, has_failed, has_ended, was_called_again, read_calls, bytes_given};

    /// Watches a reader or a writer from here on.
    pub fn new(inner: T) -> Watched<T>
        ensures inner { watched result ≡ inner }
        ensures failed { has_failed result ≡ false }
        ensures again { was_called_again result ≡ false }
        ensures ended { has_ended result ≡ false }
        ensures calls { read_calls result ≡ 0 }
        ensures bytes { bytes_given result ≡ 0 }
    {
        Watched {
            inner,
            failed: false,
            called_again: false,
            ended: false,
            read_calls: 0,
            bytes_given: 0,
        }
    }

    /// What is watched.
    pub fn inner(&self) -> &T
        ensures { result.now ≡ watched self.now }
    {
        &self.inner
    }

    /// Whether a read, a write or a flush so far answered with an error, or a write of some bytes took none.
    pub fn failed(&self) -> bool
        ensures { result ≡ has_failed self.now }
    {
        self.failed
    }

    /// Whether a read so far, into a buffer that isn't empty, answered that there are no more bytes.
    pub fn ended(&self) -> bool
        ensures { result ≡ has_ended self.now }
    {
        self.ended
    }
}

impl<R: Read> Read for Watched<R> {
    ghost use Rattle.std.specs.Prelude.{◌≡◌, ◌||◌};
    ghost use Rattle.std.specs.Result.{is_err};
    ghost use Rattle.std.specs.Io.{ReadsAtMost};
    ghost use Rattle.std.specs.Io.KnownBytes.{ReadConsumes};
    ghost use Rattle.program_streams.specs.Watched.{watched, has_failed, has_ended, was_called_again, read_calls, bytes_given, moved_nothing, moved, counted};

    ghost remaining = { λ w. R.remaining (watched w) };

    fn read(&mut self, buf: &mut [u8]) -> io::Result<usize>
        ensures bound { ReadsAtMost result buf.new }
        ensures bytes { ReadConsumes (R.remaining (watched self.old)) (R.remaining (watched self.new)) result buf.new }
        ensures failed { has_failed self.new ≡ (has_failed self.old || is_err result) }
        ensures again { was_called_again self.new ≡ (has_failed self.old || was_called_again self.old) }
        ensures ended { has_ended self.new ≡ (has_ended self.old || moved_nothing result buf.new) }
        ensures calls { read_calls self.new ≡ counted (read_calls self.old) 1 }
        ensures given { bytes_given self.new ≡ counted (bytes_given self.old) (moved result) }
    {
        self.called_again = self.failed || self.called_again;
        let answer = self.inner.read(buf);
        let given = match &answer {
            Ok(count) => {
                if *count == 0 && !buf.is_empty() {
                    self.ended = true;
                }
                *count as u64
            }
            Err(_) => {
                self.failed = true;
                0
            }
        };
        self.read_calls = self.read_calls.saturating_add(1);
        self.bytes_given = self.bytes_given.saturating_add(given);
        answer
    }
}

impl<W: Write> Write for Watched<W> {
    ghost use Rattle.std.specs.Prelude.{◌≡◌, ◌||◌};
    ghost use Rattle.std.specs.Result.{is_err};
    ghost use Rattle.std.specs.Io.{WritesAtMost};
    ghost use Rattle.std.specs.Io.KnownBytes.{Keeps, WriteAppends};
    ghost use Rattle.program_streams.specs.Watched.{watched, has_failed, has_ended, was_called_again, moved_nothing};

    ghost contents = { λ w. W.contents (watched w) };

    fn write(&mut self, buf: &[u8]) -> io::Result<usize>
        ensures bound { WritesAtMost result buf.now }
        ensures bytes { WriteAppends (W.contents (watched self.old)) (W.contents (watched self.new)) result buf.now }
        ensures failed { has_failed self.new ≡ (has_failed self.old || (is_err result || moved_nothing result buf.now)) }
        ensures again { was_called_again self.new ≡ (has_failed self.old || was_called_again self.old) }
        ensures ended { has_ended self.new ≡ has_ended self.old }
    {
        self.called_again = self.failed || self.called_again;
        let answer = self.inner.write(buf);
        match &answer {
            Ok(count) => {
                if *count == 0 && !buf.is_empty() {
                    self.failed = true;
                }
            }
            Err(_) => self.failed = true,
        }
        answer
    }

    // A body that answered Ok and flushed nothing would meet this contract: what a writer holds are the bytes written to
    // it, flushed or not.
    fn flush(&mut self) -> io::Result<()>
        ensures bytes { Keeps (W.contents (watched self.old)) (W.contents (watched self.new)) }
        ensures failed { has_failed self.new ≡ (has_failed self.old || is_err result) }
        ensures again { was_called_again self.new ≡ (has_failed self.old || was_called_again self.old) }
        ensures ended { has_ended self.new ≡ has_ended self.old }
    {
        self.called_again = self.failed || self.called_again;
        let answer = self.inner.flush();
        if answer.is_err() {
            self.failed = true;
        }
        answer
    }
}
