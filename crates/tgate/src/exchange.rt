//! What went through a connection that was dialled, as far as a person is told of it.
use std::alloc::Global;
use std::cell::Cell;
use std::env::Args;
use std::io;
use std::io::{ErrorKind, IsTerminal, Read, Write};
use std::net::{Net, OpenListener, OpenStream, Shutdown, SocketAddr};
use std::os::fd::{AsRawFd, RawFd};
use std::rt::HostRuntime;
use std::time::Duration;
use tg_bytes::Bytes;
use tg_http::MAX_TEXT;

/// The first bytes of those that went one way, 16,384 at most. Where memory is wanted for them there are none.
#[derive(Drop)]
struct Front {
    bytes: Cell<Option<Bytes>>,
    room: Cell<usize>,
}

impl Front {
    /// None yet.
    fn new(alloc: Global) -> Front {
        Front {
            bytes: Cell::new(Some(Bytes::new(alloc))),
            room: Cell::new(MAX_TEXT),
        }
    }

    /// These bytes came next.
    fn push(&self, bytes: &[u8]) {
        let room = self.room.get();
        if room == 0 {
            return;
        }
        let size = room.min(bytes.len());
        let Some(mut front) = self.bytes.replace(None) else {
            return;
        };
        if front.push_all(&bytes[..size]).is_ok() {
            self.room.set(room - size);
            let _none = self.bytes.replace(Some(front));
        } else {
            self.room.set(0);
        }
    }

    /// The bytes, which are given once.
    fn take(&self) -> Option<Bytes> {
        self.bytes.replace(None)
    }
}

/// Why a connection failed.
#[derive(Clone, Copy)]
pub enum Broken {
    /// Nothing came for as long as a read waits.
    Silent,
    /// The system says so.
    Told(io::Error),
}

/// The one exchange of a `fetch` or a `mirror`, where err is a terminal: the front of what was asked and of what was heard, and
/// why the connection failed. Of other commands nothing is noted, nor where err is no terminal: it costs the test of a flag then.
#[derive(Drop)]
pub struct Exchange {
    /// Whether it is noted what is moved, and what fails.
    is_noted: Cell<bool>,
    asked: Front,
    heard: Front,
    broken: Cell<Option<Broken>>,
}

impl Exchange {
    /// The exchange, before it begins, of the command that these arguments name, the first of which is the program's name.
    pub fn new(rt: HostRuntime, args: io::Result<Args>) -> Exchange {
        Exchange {
            is_noted: Cell::new(rt.stderr().is_terminal() && is_with_one(args)),
            asked: Front::new(rt.alloc()),
            heard: Front::new(rt.alloc()),
            broken: Cell::new(None),
        }
    }

    /// The front of what was asked, which is given once.
    pub fn asked(&self) -> Option<Bytes> {
        self.asked.take()
    }

    /// The front of what was heard, which is given once.
    pub fn heard(&self) -> Option<Bytes> {
        self.heard.take()
    }

    /// Why the connection failed, where a call of it did.
    pub fn broken(&self) -> Option<Broken> {
        self.broken.get()
    }

    /// A read gave this, into a room that these bytes stand in.
    fn read(&self, read: io::Result<usize>, room: &[u8]) {
        if !self.is_noted.get() {
            return;
        }
        match read {
            Ok(size) => self.heard.push(&room[..size.min(room.len())]),
            Err(e) if e.kind() == ErrorKind::WouldBlock => self.broken.set(Some(Broken::Silent)),
            Err(e) => self.broken.set(Some(Broken::Told(e))),
        }
    }

    /// A write of these bytes gave this.
    fn wrote(&self, written: io::Result<usize>, bytes: &[u8]) {
        if !self.is_noted.get() {
            return;
        }
        match written {
            Ok(size) => self.asked.push(&bytes[..size.min(bytes.len())]),
            Err(e) => self.broken.set(Some(Broken::Told(e))),
        }
    }

    /// No more is asked: what fails behind this is no fault of the exchange.
    fn end(&self) {
        self.is_noted.set(false);
    }
}

/// Whether these arguments name a command that asks one peer once.
fn is_with_one(args: io::Result<Args>) -> bool {
    let Ok(args) = args else {
        return false;
    };
    match args.skip(1).next() {
        Some(command) => matches!(command.as_str(), "fetch" | "mirror"),
        None => false,
    }
}

/// A net whose connections are noted: one that does what the inner one does.
#[derive(Drop)]
pub struct NotedNet<'a, R> {
    pub inner: R,
    pub exchange: &'a Exchange,
}

impl<'a, R: Net> Net for NotedNet<'a, R> {
    type Stream = NotedStream<'a, R::Stream>;

    type Listener = NotedListener<'a, R::Listener>;

    fn bind(&self, addr: SocketAddr) -> io::Result<NotedListener<'a, R::Listener>> {
        let inner = self.inner.bind(addr)?;
        Ok(NotedListener {
            inner,
            exchange: self.exchange,
        })
    }

    fn connect(&self, addr: SocketAddr) -> io::Result<NotedStream<'a, R::Stream>> {
        let inner = self.inner.connect(addr)?;
        Ok(NotedStream {
            inner,
            exchange: self.exchange,
        })
    }

    fn connect_timeout(
        &self,
        addr: SocketAddr,
        timeout: Duration,
    ) -> io::Result<NotedStream<'a, R::Stream>> {
        let inner = self.inner.connect_timeout(addr, timeout)?;
        Ok(NotedStream {
            inner,
            exchange: self.exchange,
        })
    }

    fn lookup_host(&self, host: &str, port: u16, found: &mut [SocketAddr]) -> io::Result<usize> {
        self.inner.lookup_host(host, port, found)
    }
}

/// A listener of a net whose connections are noted.
#[derive(Drop)]
pub struct NotedListener<'a, L> {
    inner: L,
    exchange: &'a Exchange,
}

impl<'a, L: OpenListener> OpenListener for NotedListener<'a, L> {
    type Stream = NotedStream<'a, L::Stream>;

    fn accept(&self) -> io::Result<(NotedStream<'a, L::Stream>, SocketAddr)> {
        let (inner, addr) = self.inner.accept()?;
        let stream = NotedStream {
            inner,
            exchange: self.exchange,
        };
        Ok((stream, addr))
    }
}

impl<L: AsRawFd> AsRawFd for NotedListener<'_, L> {
    fn as_raw_fd(&self) -> RawFd {
        self.inner.as_raw_fd()
    }
}

/// A connection that is noted. Of a stream's own methods it has those that a link calls.
#[derive(Drop)]
pub struct NotedStream<'a, T> {
    inner: T,
    exchange: &'a Exchange,
}

impl<T: Read> Read for NotedStream<'_, T> {
    ghost remaining = { λ s. T.remaining s.inner };

    fn read(&mut self, buf: &mut [u8]) -> io::Result<usize> {
        let read = self.inner.read(buf);
        self.exchange.read(read, buf);
        read
    }
}

impl<T: Write> Write for NotedStream<'_, T> {
    ghost contents = { λ s. T.contents s.inner };

    fn write(&mut self, buf: &[u8]) -> io::Result<usize> {
        let written = self.inner.write(buf);
        self.exchange.wrote(written, buf);
        written
    }

    fn flush(&mut self) -> io::Result<()> {
        self.inner.flush()
    }
}

impl<T: OpenStream> OpenStream for NotedStream<'_, T> {
    /// The exchange is over with it.
    fn shutdown(&self, how: Shutdown) -> io::Result<()> {
        self.exchange.end();
        self.inner.shutdown(how)
    }

    fn set_nodelay(&self, nodelay: bool) -> io::Result<()> {
        self.inner.set_nodelay(nodelay)
    }

    fn set_read_timeout(&self, dur: Option<Duration>) -> io::Result<()> {
        self.inner.set_read_timeout(dur)
    }

    fn set_write_timeout(&self, dur: Option<Duration>) -> io::Result<()> {
        self.inner.set_write_timeout(dur)
    }
}

impl<T: AsRawFd> AsRawFd for NotedStream<'_, T> {
    fn as_raw_fd(&self) -> RawFd {
        self.inner.as_raw_fd()
    }
}
