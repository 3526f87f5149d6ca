//! A door, a dial and their links over real sockets.
use std::io;
use std::io::{Read, Write};
use std::net::{Ipv4Addr, Shutdown, SocketAddr, TcpStream};
use std::time::Instant;
use tg_dials::{Dial, TcpDial};
use tg_doors::{Door, TcpDoor};
use tg_faults::Failed;
use tg_links::TcpLink;
use tg_streams::{Sink, Source, put_all, read_front};

/// Whether a link hears these bytes and then the end, and goes on to give the end.
fn hears<L: Source>(link: &mut L, want: &[u8]) -> bool {
    let mut buf = [0; 16];
    match read_front(link, &mut buf) {
        Ok(n) if n <= buf.len() => &buf[..n] == want && link.take(&mut buf) == Ok(0),
        _ => false,
    }
}

/// A client's connection to a port of this machine.
fn dialled(rt: &HostRuntime, port: u16) -> io::Result<TcpStream> {
    TcpStream::connect(rt, SocketAddr::from((Ipv4Addr::LOCALHOST, port)))
}

/// Whether a client can say these bytes, and then that no more come.
fn says(client: &mut TcpStream, bytes: &[u8]) -> bool {
    client.write_all(bytes).is_ok() && client.shutdown(Shutdown::Write).is_ok()
}

/// Whether a client reads these bytes and then the end.
fn reads(client: &mut TcpStream, want: &[u8; 8]) -> bool {
    let mut buf = [0; 8];
    client.read_exact(&mut buf).is_ok() && buf == *want && matches!(client.read(&mut buf), Ok(0))
}

/// Whether a door over sockets answers one client, and takes the link back with no fault.
fn serves(rt: &HostRuntime) -> bool {
    let mut door = TcpDoor::new(*rt);
    if door.admit().is_ok() || door.count() != 1 {
        return false;
    }
    let Ok(port) = door.bind(0) else {
        return false;
    };
    let Ok(mut client) = dialled(rt, port) else {
        return false;
    };
    let said = says(&mut client, b"hello");
    let Ok(Some(mut link)) = door.admit() else {
        return false;
    };
    let answers = said && hears(&mut link, b"hello") && put_all(&mut link, b"hi there").is_ok();
    door.done(link);
    // Its own port is in use, so that it stays as it was.
    let keeps = port != 0 && door.bind(port) == Err(Failed) && door.count() == 2;
    answers && keeps && reads(&mut client, b"hi there")
}

/// Whether a client that reset its connection is a fault of its link, and one of the door.
fn counts_reset(rt: &HostRuntime) -> bool {
    let mut door = TcpDoor::new(*rt);
    let Ok(port) = door.bind(0) else {
        return false;
    };
    let Ok(mut client) = dialled(rt, port) else {
        return false;
    };
    let Ok(Some(mut link)) = door.admit() else {
        return false;
    };
    // A connection that is closed over bytes that weren't read is reset.
    let mut byte = [0];
    let arrives = put_all(&mut link, b"hello").is_ok() && client.read_exact(&mut byte).is_ok();
    drop(client);
    let resets = link.take(&mut byte) == Err(Failed) && link.count() == 1;
    door.done(link);
    arrives && resets && door.count() == 1
}

/// Whether the door takes a link back at once, though its client doesn't end, and a client reads the whole answer and the
/// end, though the door's link left bytes of its unread.
fn finishes(rt: &HostRuntime, ends: bool) -> bool {
    let mut door = TcpDoor::new(*rt);
    let Ok(port) = door.bind(0) else {
        return false;
    };
    let Ok(mut client) = dialled(rt, port) else {
        return false;
    };
    let said = if ends {
        says(&mut client, b"hello")
    } else {
        client.write_all(b"hello").is_ok()
    };
    let Ok(Some(mut link)) = door.admit() else {
        return false;
    };
    let mut byte = [0];
    let hears = said && link.take(&mut byte) == Ok(1) && byte == [b'h'];
    let answers = put_all(&mut link, b"hi there").is_ok();
    let Ok(start) = Instant::now(rt) else {
        return false;
    };
    door.done(link);
    let waited = match start.elapsed(rt) {
        Ok(waited) => waited.as_millis(),
        Err(_) => return false,
    };
    hears && answers && waited < 500 && reads(&mut client, b"hi there") && door.count() == 0
}

/// The link of a client that connects to this door, and the client.
fn admitted(
    rt: &HostRuntime,
    door: &mut TcpDoor<HostRuntime>,
    port: u16,
) -> Option<(TcpLink<TcpStream>, TcpStream)> {
    let Ok(client) = dialled(rt, port) else {
        return None;
    };
    match door.admit() {
        Ok(Some(link)) => Some((link, client)),
        _ => None,
    }
}

/// Whether a door that waits marks the link whose client said something and no other.
fn marks_one(rt: &HostRuntime) -> bool {
    let mut door = TcpDoor::new(*rt);
    let Ok(port) = door.bind(0) else {
        return false;
    };
    let Some((idle, _silent)) = admitted(rt, &mut door, port) else {
        return false;
    };
    let Some((asked, mut asker)) = admitted(rt, &mut door, port) else {
        return false;
    };
    if asker.write_all(b"hello").is_err() {
        return false;
    }
    let lanes = [Some(idle), None, Some(asked)];
    let mut ready = [true; 3];
    door.wait(&lanes, false, &mut ready) == 0 && ready == [false, false, true]
}

/// Whether a door that waits tells of a connection that comes, and marks no link for it, nor for what a client still says
/// whose link was given back.
fn tells_of_one(rt: &HostRuntime) -> bool {
    let mut door = TcpDoor::new(*rt);
    let Ok(port) = door.bind(0) else {
        return false;
    };
    let Some((given_back, mut talker)) = admitted(rt, &mut door, port) else {
        return false;
    };
    let Some((idle, _silent)) = admitted(rt, &mut door, port) else {
        return false;
    };
    door.done(given_back);
    let Ok(_comer) = dialled(rt, port) else {
        return false;
    };
    let lanes = [Some(idle)];
    let mut ready = [true];
    talker.write_all(b"more").is_ok()
        && door.wait(&lanes, true, &mut ready) == 1
        && ready == [false]
        && door.count() == 0
}

#[test]
fn a_door_serves_a_client(rt: HostRuntime) {
    assert!(rt; serves(&rt));
    assert!(rt; counts_reset(&rt));
    assert!(rt; finishes(&rt, true) && finishes(&rt, false));
}

#[test]
fn a_door_waits_for_links(rt: HostRuntime) {
    assert!(rt; marks_one(&rt) && tells_of_one(&rt));
}

/// Whether a dial reaches a door of this machine, and bytes go both ways, with no fault on either side.
fn dials(rt: &HostRuntime) -> bool {
    let mut door = TcpDoor::new(*rt);
    let mut dial = TcpDial::new(*rt);
    let Ok(port) = door.bind(0) else {
        return false;
    };
    let Ok(addr) = format!(in rt.alloc(); "127.0.0.1:{port}") else {
        return false;
    };
    let Ok(mut link) = dial.dial(addr.as_str()) else {
        return false;
    };
    let Ok(Some(mut given)) = door.admit() else {
        return false;
    };
    let mut buf = [0; 5];
    let asks = put_all(&mut link, b"hello").is_ok()
        && read_front(&mut given, &mut buf) == Ok(5)
        && buf == *b"hello";
    let answers = put_all(&mut given, b"hi there").is_ok();
    // It doesn't wait for the dial's link, which ends behind it.
    door.done(given);
    let ends = hears(&mut link, b"hi there");
    dial.done(link);
    asks && answers && ends && door.count() == 0 && dial.count() == 0
}

/// Whether a dial fails where nothing listens, at the port 1 (RFC 1078) of this machine, and where the address has no port,
/// and counts both.
fn misses(rt: &HostRuntime) -> bool {
    let mut dial = TcpDial::new(*rt);
    let refused = dial.dial("127.0.0.1:1").is_err() && dial.count() == 1;
    refused && dial.dial("127.0.0.1").is_err() && dial.count() == 2
}

#[test]
fn a_dial_reaches_a_door(rt: HostRuntime) {
    assert!(rt; dials(&rt));
    assert!(rt; misses(&rt));
}
