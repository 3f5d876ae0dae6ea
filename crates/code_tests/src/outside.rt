use fec_base::{
    CleanSource, Failed, ListWatch, MemSink, MemSource, NullSink, Place, ProgressWatch, QuietWatch,
    ReadFailed, Sink, Source, Steps, Tally, Watch, Words, WriteFailed, read_full, write_all,
};
use std::mem::size_of;
use std::process::Abort;
use std::test::Fail;

#[test]
fn a_full_read_is_short_only_at_the_end(rt: HostRuntime) -> Result<(), Fail> {
    let mut source = MemSource::new(rt.alloc(), b"012345", 3, None)?;
    let mut buf = [0u8; 4];
    assert!(rt; read_full(&mut source, &mut buf) == Ok(4));
    assert!(rt; buf.as_slice() == b"0123".as_slice());
    assert!(rt; read_full(&mut source, &mut buf) == Ok(2));
    assert!(rt; buf.as_slice() == b"4523".as_slice());
    assert!(rt; read_full(&mut source, &mut buf) == Ok(0));
    Ok(())
}

#[test]
fn a_source_fails_at_its_stop(rt: HostRuntime) -> Result<(), Fail> {
    let mut source = MemSource::new(rt.alloc(), b"012345", 2, Some(3))?;
    let mut buf = [0u8; 4];
    assert!(rt; read_full(&mut source, &mut buf) == Err(ReadFailed));
    assert!(rt; buf.as_slice() == [b'0', b'1', b'2', 0].as_slice());
    assert!(rt; source.read(&mut buf) == Err(Failed));
    assert!(rt; source.read(&mut buf[..0]) == Ok(0));
    Ok(())
}

#[test]
fn a_full_write_ends_within_the_piece_where_the_room_does(rt: HostRuntime) -> Result<(), Fail> {
    let mut sink = MemSink::new(rt.alloc(), 5, 2)?;
    assert!(rt; write_all(&mut sink, b"0123") == Ok(()));
    assert!(rt; write_all(&mut sink, b"45") == Err(WriteFailed));
    assert!(rt; sink.bytes() == b"01234".as_slice());
    assert!(rt; sink.write(b"5") == Err(Failed));
    assert!(rt; sink.write(b"") == Ok(0));
    Ok(())
}

#[test]
fn a_clean_source_gives_all_and_a_null_sink_takes_all(rt: HostRuntime) -> Result<(), Fail> {
    let mut source = CleanSource::new(rt.alloc(), b"012345")?;
    let mut buf = [0u8; 8];
    assert!(rt; read_full(&mut source, &mut buf) == Ok(6));
    assert!(rt; buf.as_slice() == [b'0', b'1', b'2', b'3', b'4', b'5', 0, 0].as_slice());
    assert!(rt; write_all(&mut NullSink, b"0123") == Ok(()));
    Ok(())
}

#[test]
fn a_list_watch_keeps_what_it_is_told_until_its_room_is_used(rt: HostRuntime) -> Result<(), Fail> {
    let mut watch = ListWatch::new(rt.alloc(), 2, 4)?;
    check_room(&rt, &mut watch);
    check_places(&rt, &watch);
    assert!(rt; watch.told_bytes(0) == b"abc".as_slice());
    assert!(rt; watch.told_bytes(1) == b"d".as_slice());
    assert!(rt; watch.told_bytes(2) == b"".as_slice());
    Ok(())
}

// The watch has room for two symbols, and for four bytes of them.
fn check_room(rt: &impl Abort, watch: &mut ListWatch) {
    assert!(rt; watch.rebuilt(3, 7, b"abc").is_ok());
    assert!(rt; watch.rebuilt(3, 8, b"de").is_err());
    assert!(rt; watch.rebuilt(4, 0, b"d").is_ok());
    assert!(rt; watch.rebuilt(4, 1, b"").is_err());
}

// The watch was told of symbol 7 of block 3 and of symbol 0 of block 4.
fn check_places(rt: &impl Abort, watch: &ListWatch) {
    assert!(rt; watch.told_count() == 2);
    assert!(rt; watch.told_place(0) == Some(Place { block: 3, esi: 7 }));
    assert!(rt; watch.told_place(1) == Some(Place { block: 4, esi: 0 }));
    assert!(rt; watch.told_place(2).is_none());
}

#[test]
fn a_progress_watch_writes_a_line_at_each_thousandth_symbol(rt: HostRuntime) -> Result<(), Fail> {
    let mut text = Vec::new(rt.alloc());
    let mut watch = ProgressWatch::new(&mut text);
    for esi in 0..2_500 {
        assert!(rt; watch.rebuilt(0, esi, b"symbol") == Ok(()));
    }
    assert!(rt; watch.told_count() == 0);
    assert!(rt; watch.told_place(0) == None);
    assert!(rt; text.as_slice() == b"rebuilt 1000\nrebuilt 2000\n".as_slice());
    Ok(())
}

#[test]
fn words_stand_in_order(rt: HostRuntime) -> Result<(), Fail> {
    let mut words = Words::new(rt.alloc());
    assert!(rt; words.count() == 0);
    words.push("encode")?;
    words.push("--block=3")?;
    assert!(rt; words.count() == 2);
    assert!(rt; words.word(0) == "encode");
    assert!(rt; words.word(1) == "--block=3");
    Ok(())
}

#[test]
fn a_boxed_quiet_watch_takes_all_and_tells_nothing(rt: HostRuntime) -> Result<(), Fail> {
    let mut watch: Box<dyn Watch> = Box::new(rt.alloc(), QuietWatch)?;
    assert!(rt; tell_through_a_bound(&mut watch) == Ok(()));
    assert!(rt; watch.told_count() == 0);
    assert!(rt; watch.told_place(0) == None);
    assert!(rt; watch.told_bytes(0) == b"".as_slice());
    Ok(())
}

fn tell_through_a_bound<W: Watch>(watch: &mut W) -> Result<(), Failed> {
    watch.rebuilt(0, 1, b"2")
}

#[test]
fn a_counter_of_steps_takes_no_bytes(rt: HostRuntime) {
    let mut steps = Steps::<Tally>::start();
    steps.tick();
    assert!(rt; size_of::<Steps<Tally>>() == 0);
}
