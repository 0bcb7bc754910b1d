//! What no clause says: that calls succeed where memory is ample and no failure was chosen. The
//! values were worked out by hand.

use pc_syntax::Word;
use pc_world::{
    Failed, MemShelf, MemSink, MemSource, Shelf, ShelfError, Sink, Source, StdSink, StdSource,
    put_all,
};
use std::alloc::Global;
use std::test::Fail;

/// One read of at most 4 bytes, over dots.
fn read_four<S: Source>(source: &mut S) -> (Result<usize, Failed>, [u8; 4]) {
    let mut into = *b"....";
    let answer = source.read(&mut into);
    (answer, into)
}

/// A write of the piece, or a flush where there is none.
fn write_or_flush<K: Sink>(sink: &mut K, piece: Option<&[u8]>) -> Result<usize, Failed> {
    match piece {
        Some(bytes) => sink.write(bytes),
        None => {
            sink.flush()?;
            Ok(0)
        }
    }
}

/// Whether exactly these bytes stand under the name, or none do.
fn keeps<H: Shelf>(
    alloc: Global,
    shelf: &mut H,
    name: &str,
    bytes: Option<&[u8]>,
) -> Result<bool, ShelfError> {
    match (shelf.get(alloc, name)?, bytes) {
        (Some(found), Some(bytes)) => Ok(found.as_slice() == bytes),
        (None, None) => Ok(true),
        _ => Ok(false),
    }
}

fn entry(alloc: Global, name: &[u8], bytes: &[u8]) -> Result<(Word, Word), Fail> {
    Ok((Word::new(alloc, name)?, Word::new(alloc, bytes)?))
}

#[test]
fn a_source_in_memory_fails_at_its_numbers(rt: HostRuntime) -> Result<(), Fail> {
    let alloc = rt.alloc();
    let mut source = MemSource::new(b"abcdef".to_vec(alloc)?, vec![in alloc; 2]?);
    let reads = [
        (Ok(4), *b"abcd"),
        (Err(Failed), *b"...."),
        (Ok(2), *b"ef.."),
        (Ok(0), *b"...."),
    ];
    for read in reads {
        assert_eq!(rt; read_four(&mut source), read);
    }
    Ok(())
}

#[test]
fn a_sink_in_memory_fails_at_its_numbers(rt: HostRuntime) -> Result<(), Fail> {
    let alloc = rt.alloc();
    let mut sink = MemSink::new(alloc, 5, vec![in alloc; 2, 4]?)?;
    let calls: [(Option<&[u8]>, Result<usize, Failed>); 7] = [
        (Some(b"abc"), Ok(3)),
        (None, Err(Failed)),
        (Some(b""), Ok(0)),
        (Some(b"de"), Err(Failed)),
        (Some(b"fgh"), Ok(2)),
        (Some(b"i"), Ok(0)),
        (None, Ok(0)),
    ];
    for (piece, answer) in calls {
        assert_eq!(rt; write_or_flush(&mut sink, piece), answer);
    }
    assert_eq!(rt; sink.bytes(), b"abcfg".as_slice());
    Ok(())
}

#[test]
fn a_shelf_in_memory_fails_at_its_numbers(rt: HostRuntime) -> Result<(), Fail> {
    let alloc = rt.alloc();
    let files = vec![in alloc;
        entry(alloc, b"a", b"first")?,
        entry(alloc, b"a", b"second")?,
    ]?;
    let mut shelf = MemShelf::new(files, vec![in alloc; 2, 5]?);
    assert_eq!(rt; keeps(alloc, &mut shelf, "a", Some(b"first")), Ok(true));
    assert_eq!(rt; shelf.put(alloc, "a", b"third"), Err(ShelfError::Failed));
    assert_eq!(rt; keeps(alloc, &mut shelf, "a", Some(b"first")), Ok(true));
    assert_eq!(rt; shelf.put(alloc, "a", b"fourth"), Ok(()));
    assert_eq!(rt;
        keeps(alloc, &mut shelf, "a", None),
        Err(ShelfError::Failed)
    );
    assert_eq!(rt; keeps(alloc, &mut shelf, "a", Some(b"fourth")), Ok(true));
    assert_eq!(rt; keeps(alloc, &mut shelf, "b", None), Ok(true));
    Ok(())
}

#[test]
fn real_streams_pass_bytes_on(rt: HostRuntime) -> Result<(), Fail> {
    let alloc = rt.alloc();
    let script: &[u8] = b"abcdef";
    assert_eq!(rt; read_four(&mut StdSource::new(script)), (Ok(4), *b"abcd"));
    let mut written = Vec::new(alloc);
    let mut sink = StdSink::new(&mut written);
    assert_eq!(rt; put_all(&mut sink, b"reply\n"), Ok(()));
    assert_eq!(rt; sink.flush(), Ok(()));
    assert_eq!(rt; written.as_slice(), b"reply\n".as_slice());
    Ok(())
}
