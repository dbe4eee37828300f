// Answers that are held back, over a sink of memory.
use host_io::Outbox;
use rail_io::{Pushed, VecSink};
use std::process::Abort;
use std::test::Fail;

fn write_all<A: Abort>(rt: &A, outbox: &mut Outbox, sink: &mut VecSink, pieces: &[&str]) {
    for piece in pieces {
        let bytes = piece.as_bytes();
        assert!(rt; !bytes.is_empty());
        assert!(rt; outbox.write(sink, bytes) == Pushed::Took(bytes.len()));
    }
}

/// The first send fails, and the second doesn't: nothing goes out before it, and all of it then, once.
#[test]
fn what_a_sink_did_not_get_is_held(rt: HostRuntime) -> Result<(), Fail> {
    let mut outbox = Outbox::new(rt.alloc())?;
    let mut sink = VecSink::new(rt.alloc(), vec![in rt.alloc(); 1]?);
    write_all(&rt, &mut outbox, &mut sink, &["one ", "two ", "three"]);
    assert!(rt; !outbox.send(&mut sink));
    assert!(rt; sink.taken().is_empty());
    assert!(rt; outbox.send(&mut sink) && outbox.send(&mut sink));
    assert!(rt; sink.taken() == b"one two three".as_slice());
    Ok(())
}
