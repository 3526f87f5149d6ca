//! A source and a sink over a pipe.
use std::io::pipe;
use tg_streams::{StdSink, StdSource, put_all, take_piece};

/// Whether a pipe gives the bytes that were put into it, in pieces, and then its end.
fn carries(rt: &HostRuntime) -> bool {
    let Ok((reader, mut writer)) = pipe(rt) else {
        return false;
    };
    if put_all(&mut StdSink::new(&mut writer), b"hello world").is_err() {
        return false;
    }
    drop(writer);
    let mut source = StdSource::new(reader);
    let mut buf = [0; 6];
    take_piece(&mut source, &mut buf) == Ok(6)
        && buf.as_slice() == b"hello ".as_slice()
        && take_piece(&mut source, &mut buf) == Ok(5)
        && &buf[..5] == b"world".as_slice()
        && take_piece(&mut source, &mut buf) == Ok(0)
        && source.count() == 0
}

#[test]
fn a_pipe_carries_the_bytes(rt: HostRuntime) {
    assert!(rt; carries(&rt));
}
