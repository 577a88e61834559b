ghost use Rattle.std.specs.Prelude.{◌<◌, length};

use crate::{
    Failed, Gate, Inputs, MeetGate, MemInputs, MemOutputs, MemSink, MemSlot, MemSource, OpenGate,
    Outputs, Point, Sink, Slot, Source,
};
use std::alloc::Global;
use std::process::Abort;
use std::test::Fail;
use std::thread::join;

// The next read gives these bytes, or fails where none are given.
fn expect_read(rt: &impl Abort, source: &mut MemSource, want: Option<&[u8]>) {
    let mut buf = [0u8; 4];
    let got = match source.read(&mut buf) {
        Ok(count) => Some(&buf[..count]),
        Err(_) => None,
    };
    assert_eq!(rt; got, want);
}

#[test]
fn a_source_gives_its_chunks_and_fails_where_it_is_listed(rt: HostRuntime) -> Result<(), Fail> {
    let mut source = MemSource::over(rt.alloc(), b"abcdefg", 3, &[1, 4])?;
    // Read 1 and read 4 fail, and take nothing.
    for want in [
        Some(b"abc".as_slice()),
        None,
        Some(b"def".as_slice()),
        Some(b"g".as_slice()),
        None,
        Some(b"".as_slice()),
    ] {
        expect_read(&rt, &mut source, want);
    }
    assert_eq!(rt; source.faults(), 2);
    Ok(())
}

#[test]
fn a_sink_takes_its_chunks_and_fails_where_it_is_listed(rt: HostRuntime) -> Result<(), Fail> {
    let mut sink = MemSink::new(rt.alloc(), 4, &[1, 3])?;
    let took = [
        sink.write(b"abcdef").ok(),
        sink.write(b"x").ok(),
        sink.write(b"ef").ok(),
        sink.write(b"y").ok(),
    ];
    assert_eq!(rt;
        (took, sink.bytes(), sink.faults(), sink.starved()),
        ([Some(4), None, Some(2), None], b"abcdef".as_slice(), 2, 0)
    );
    Ok(())
}

#[test]
fn a_sink_keeps_what_stood_at_its_first_failed_write(rt: HostRuntime) -> Result<(), Fail> {
    let mut sink = MemSink::new(rt.alloc(), 4, &[1, 3])?;
    // The pieces, how much of each is taken, and the bytes at the first failed write from then on.
    let rows = [
        (b"ab".as_slice(), Some(2), None),
        (b"x".as_slice(), None, Some(b"ab".as_slice())),
        (b"cd".as_slice(), Some(2), Some(b"ab".as_slice())),
        (b"y".as_slice(), None, Some(b"ab".as_slice())),
    ];
    for (piece, took, at_failure) in rows {
        assert_eq!(rt;
            (sink.write(piece).ok(), sink.at_failure()),
            (took, at_failure)
        );
    }
    Ok(())
}

#[test]
fn a_slot_shows_its_block_until_a_store_fails(rt: HostRuntime) -> Result<(), Fail> {
    let mut slot = MemSlot::new(rt.alloc(), &[2, 4])?;
    let mut shown = [9u8; 2];
    // Call 2 and call 4 fail.
    let went = [
        slot.store(&[1, 2]).is_ok(),
        slot.load(&mut shown).is_ok(),
        slot.load(&mut [0u8; 2]).is_ok(),
        slot.store(&[3, 4]).is_ok(),
        slot.store(&[5, 6]).is_ok(),
    ];
    assert_eq!(rt;
        (went, shown, slot.stores(), slot.faults(), slot.starved()),
        ([true, true, false, true, false], [1, 2], 2, 2, 0)
    );
    Ok(())
}

// The next two reads of a name: how many bytes each gives, none at a fault.
fn two_reads(inputs: &mut MemInputs, name: &str) -> Result<[Option<usize>; 2], Failed> {
    let mut source = inputs.open(name)?;
    let mut buf = [0u8; 8];
    let counts = [source.read(&mut buf).ok(), source.read(&mut buf).ok()];
    inputs.close(name, source);
    Ok(counts)
}

#[test]
fn inputs_open_what_was_put_and_count_faults_by_name(rt: HostRuntime) -> Result<(), Fail> {
    let mut inputs = MemInputs::new(rt.alloc())?;
    let before = two_reads(&mut inputs, "a.csv");
    inputs.put("a.csv", b"xyz", 2, &[0])?;
    let after = two_reads(&mut inputs, "a.csv");
    // The fault before the name was put is one of all names that are not there.
    assert_eq!(rt;
        (
            before,
            after,
            inputs.faults("a.csv"),
            inputs.faults("b.csv"),
            inputs.starved()
        ),
        (Err(Failed), Ok([None, Some(2)]), 2, 1, 0)
    );
    Ok(())
}

// What the one output shows: its bytes, whether they are whole, the faults of its name, and the calls
// that found no memory.
fn shown(outputs: &MemOutputs) -> (Option<&[u8]>, bool, u64, u64) {
    (
        outputs.bytes("o.csv"),
        outputs.is_whole("o.csv"),
        outputs.faults("o.csv"),
        outputs.starved(),
    )
}

fn part_then_answer(rt: &impl Abort, outputs: &mut MemOutputs) -> Result<(), Fail> {
    assert_eq!(rt; shown(outputs), (None, false, 0, 0));
    write_out(outputs, b"part", false)?;
    assert_eq!(rt; shown(outputs), (Some(b"part".as_slice()), false, 0, 0));
    write_out(outputs, b"answer", true)?;
    assert_eq!(rt; shown(outputs), (Some(b"answer".as_slice()), true, 0, 0));
    Ok(())
}

#[test]
fn an_output_has_the_bytes_of_its_sink_once_it_is_done(rt: HostRuntime) -> Result<(), Fail> {
    let mut outputs = MemOutputs::new(rt.alloc())?;
    part_then_answer(&rt, &mut outputs)
}

// Three writes of one sink: how many bytes each took, none at a fault.
fn three_writes(outputs: &mut MemOutputs) -> Result<[Option<usize>; 3], Failed> {
    let mut sink = outputs.create("o.csv")?;
    let took = [
        sink.write(b"ab").ok(),
        sink.write(b"x").ok(),
        sink.write(b"c").ok(),
    ];
    outputs.done("o.csv", sink, true)?;
    Ok(took)
}

fn write_1_fails(rt: &impl Abort, outputs: &mut MemOutputs) -> Result<(), Fail> {
    outputs.fail("o.csv", &[1])?;
    // Each sink counts its writes from 0.
    for faults in [1, 2] {
        let took = three_writes(outputs)?;
        assert_eq!(rt;
            (
                took,
                outputs.bytes("o.csv"),
                outputs.faults("o.csv"),
                outputs.faults("p.csv")
            ),
            ([Some(2), None, Some(1)], Some(b"abc".as_slice()), faults, 0)
        );
    }
    Ok(())
}

#[test]
fn an_output_fails_at_the_writes_that_were_set(rt: HostRuntime) -> Result<(), Fail> {
    let mut outputs = MemOutputs::new(rt.alloc())?;
    write_1_fails(&rt, &mut outputs)
}

// Whether an answer is written where `create` and `done` are refused or not.
fn goes_out(outputs: &mut MemOutputs, create: bool, done: bool) -> Result<bool, Fail> {
    outputs.refuse("o.csv", create, done)?;
    Ok(write_out(outputs, b"answer", true).is_ok())
}

#[test]
fn a_refused_create_leaves_no_output_and_a_refused_done_none_that_is_whole(
    rt: HostRuntime,
) -> Result<(), Fail> {
    // Whether create and done are refused, the bytes then, whether they are whole, and the faults.
    let rows = [
        (true, false, None, false, 1),
        (true, true, None, false, 1),
        (false, true, Some(b"answer".as_slice()), false, 1),
        (false, false, Some(b"answer".as_slice()), true, 0),
    ];
    for (create, done, bytes, whole, faults) in rows {
        let mut outputs = MemOutputs::new(rt.alloc())?;
        let went = goes_out(&mut outputs, create, done)?;
        assert_eq!(rt;
            (went, shown(&outputs)),
            (whole, (bytes, whole, faults, 0)),
            "create {create}, done {done}"
        );
    }
    Ok(())
}

#[test]
fn a_refused_end_of_a_whole_answer_is_counted(rt: HostRuntime) -> Result<(), Fail> {
    let mut outputs = MemOutputs::new(rt.alloc())?;
    // Whether done is refused, whether a whole answer is given back, and the refused ends then.
    let rows = [
        (false, true, 0),
        (true, false, 0),
        (true, true, 1),
        (true, true, 2),
        (false, true, 2),
    ];
    for (refused, whole, ends) in rows {
        outputs.refuse("o.csv", false, refused)?;
        let went = write_out(&mut outputs, b"x", whole).is_ok();
        assert_eq!(rt;
            (
                went,
                outputs.refused_ends("o.csv"),
                outputs.refused_ends("p.csv")
            ),
            (!refused, ends, 0),
            "refused {refused}, whole {whole}"
        );
    }
    Ok(())
}

fn counts_of_inputs(rt: &impl Abort, inputs: &mut MemInputs) -> Result<(), Fail> {
    inputs.put("a.csv", b"x", 1, &[0])?;
    inputs.put("b.csv", b"y", 1, &[])?;
    let counts = two_reads(inputs, "a.csv")?;
    assert_eq!(rt; counts, [None, Some(1)]);
    for (name, count) in [("a.csv", 1), ("b.csv", 0), ("c.csv", 0)] {
        assert_eq!(rt; inputs.faults(name), count, "{name}");
    }
    Ok(())
}

fn counts_of_outputs(rt: &impl Abort, alloc: Global, outputs: &mut MemOutputs) -> Result<(), Fail> {
    let _created = outputs.create("o.csv")?;
    let mut sink = MemSink::new(alloc, 1, &[0])?;
    let took = sink.write(b"x").ok();
    outputs.done("o.csv", sink, false)?;
    assert_eq!(rt; took, None);
    for (name, count) in [("o.csv", 1), ("p.csv", 0)] {
        assert_eq!(rt; outputs.faults(name), count, "{name}");
    }
    Ok(())
}

#[test]
fn a_fault_counts_on_its_own_name(rt: HostRuntime) -> Result<(), Fail> {
    let mut inputs = MemInputs::new(rt.alloc())?;
    counts_of_inputs(&rt, &mut inputs)?;
    let mut outputs = MemOutputs::new(rt.alloc())?;
    counts_of_outputs(&rt, rt.alloc(), &mut outputs)
}

fn write_out(outputs: &mut MemOutputs, piece: &[u8], whole: bool) -> Result<(), Failed>
    requires { 0 < length piece.now }
{
    let mut sink = outputs.create("o.csv")?;
    sink.write(piece)?;
    outputs.done("o.csv", sink, whole)
}

#[test]
fn the_open_gate_lets_all_pass() {
    for point in [
        Point::BeforeStore,
        Point::AfterStore,
        Point::BeforeLoad,
        Point::AfterLoad,
        Point::QueryRead,
        Point::QueryWrote,
        Point::FragmentTook,
    ] {
        OpenGate.pass(1000, point);
    }
}

#[test]
fn two_actors_meet_at_their_points(rt: HostRuntime) -> Result<(), Fail> {
    let gate = MeetGate::new((0, Point::QueryRead), (1, Point::QueryWrote), 10_000_000)?;
    gate.pass(0, Point::BeforeLoad);
    gate.pass(1, Point::QueryRead);
    let early = gate.came();
    join(
        &rt,
        || gate.pass(0, Point::QueryRead),
        || gate.pass(1, Point::QueryWrote),
    );
    let met = (gate.came(), gate.missed());
    // Both have passed once, and wait no more.
    gate.pass(1, Point::QueryWrote);
    gate.pass(0, Point::QueryRead);
    assert_eq!(rt; (early, met, gate.missed()), (false, (true, false), false));
    Ok(())
}

#[test]
fn an_actor_goes_on_where_the_other_does_not_come(rt: HostRuntime) -> Result<(), Fail> {
    let held = (1000, Point::BeforeStore);
    let until = (0, Point::QueryRead);
    for (who, point) in [held, until] {
        let gate = MeetGate::new(held, until, 3)?;
        gate.pass(who, point);
        assert_eq!(rt; (gate.came(), gate.missed()), (who == 1000, true), "{who}");
    }
    Ok(())
}
