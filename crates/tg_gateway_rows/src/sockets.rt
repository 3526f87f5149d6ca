//! A session over a real socket, on one thread: a client of std dials the door's own port.
use crate::exchanges::Stream;
use crate::stores::{Breaks, TestStore};
use std::io::{Read, Write};
use std::net::{Ipv4Addr, SocketAddr, TcpStream};
use std::rt::HostRuntime;
use tg_doors::{Door, TcpDoor};
use tg_gateway::serve_link;
use tg_model::Limits;
use tg_rows::Answer;

/// Says how many requests are served of a stream that a client says over a socket, where it reads the replies and then
/// the end.
pub fn answer(rt: &HostRuntime, store: &mut TestStore, stream: &Stream, answer: &mut Answer) {
    store.begin(Breaks::Never);
    match served(rt, store, stream) {
        Some(requests) => answer.number(requests),
        None => answer.text("otherwise"),
    }
}

/// Whether a client reads the replies and then the end.
fn reads(client: &mut TcpStream, replies: &[u8]) -> bool {
    let mut room = [0; 512];
    let Some(front) = room.get_mut(..replies.len()) else {
        return false;
    };
    client.read_exact(front).is_ok() && *front == *replies && matches!(client.read(front), Ok(0))
}

fn served(rt: &HostRuntime, store: &mut TestStore, stream: &Stream) -> Option<u64> {
    let mut door = TcpDoor::new(*rt);
    let Ok(port) = door.bind(0) else {
        return None;
    };
    let addr = SocketAddr::from((Ipv4Addr::LOCALHOST, port));
    let Ok(mut client) = TcpStream::connect(rt, addr) else {
        return None;
    };
    let asked = client.write_all(stream.requests.as_slice()).is_ok();
    let requests = served_at(rt, &mut door, store)?;
    if asked && door.count() == 0 && reads(&mut client, stream.replies.as_slice()) {
        Some(requests)
    } else {
        None
    }
}

/// How many requests are served of the next client, where all goes well.
fn served_at(
    rt: &HostRuntime,
    door: &mut TcpDoor<HostRuntime>,
    store: &mut TestStore,
) -> Option<u64> {
    let Ok(Some(mut link)) = door.admit() else {
        return None;
    };
    let (served, end) = serve_link(rt.alloc(), store, &mut link, Limits::standard());
    door.done(link);
    if end == Ok(()) {
        Some(served.requests)
    } else {
        None
    }
}
