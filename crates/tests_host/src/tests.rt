use host::{FileInputs, FileOutputs, InUse, Output, Report};
use outside::{Inputs, Outputs, Sink, Source};
use std::io::Write;
use std::test::Fail;
use std::{env, fs, io, process};

mod again;
mod lines;
mod people;
mod scratch;

// A place of this process alone.
fn place(rt: &HostRuntime, name: &str) -> Result<String, Fail> {
    let folder = env::temp_dir(rt)?;
    let folder = folder
        .as_path()
        .to_str()
        .ok_or("a folder whose name is text")?;
    let id = process::id(rt.process());
    Ok(format!(in rt.alloc(); "{folder}/spill-test-{id}-{name}")?)
}

#[test]
fn a_file_is_read_to_its_end_and_a_missing_one_is_a_fault(rt: HostRuntime) -> Result<(), Fail> {
    let name = place(&rt, "in.csv")?;
    let in_use = InUse::new(rt.alloc());
    let mut inputs = FileInputs::new(&rt, &in_use, false, None);
    assert!(rt; inputs.open(name.as_str()).is_err());
    fs::write(&rt, name.as_str(), "k\na\n")?;
    let mut source = inputs.open(name.as_str())?;
    let mut buf = [0u8; 16];
    assert_eq!(rt; source.read(&mut buf).ok(), Some(4));
    assert_eq!(rt; buf.get(..4), Some(b"k\na\n".as_slice()));
    assert_eq!(rt; source.read(&mut buf).ok(), Some(0));
    inputs.close(name.as_str(), source);
    fs::remove_file(&rt, name.as_str())?;
    Ok(())
}

// Writes an output over an older one, and gives what stands under its name before it is done and behind it.
fn written_over(rt: &HostRuntime, name: &str, whole: bool) -> Result<(String, String), Fail> {
    fs::write(rt, name, "an older answer")?;
    let in_use = InUse::new(rt.alloc());
    let mut outputs = FileOutputs::new(rt, &in_use, false);
    let mut sink = outputs.create(name)?;
    sink.write(b"k,count\n")?;
    let before = fs::read_to_string(rt, name)?;
    outputs.done(name, sink, whole)?;
    let after = fs::read_to_string(rt, name)?;
    fs::remove_file(rt, name)?;
    Ok((before, after))
}

#[test]
fn an_output_takes_its_place_only_where_it_is_whole(rt: HostRuntime) -> Result<(), Fail> {
    let name = place(&rt, "out.csv")?;
    for (whole, held) in [(true, "k,count\n"), (false, "an older answer")] {
        let (before, after) = written_over(&rt, name.as_str(), whole)?;
        assert_eq!(rt; before.as_str(), "an older answer");
        assert_eq!(rt; after.as_str(), held);
    }
    let beside = format!(in rt.alloc(); "{name}.spill-part-0")?;
    assert!(rt; !fs::exists(&rt, beside.as_str())?);
    Ok(())
}

#[test]
fn no_output_replaces_an_input(rt: HostRuntime) -> Result<(), Fail> {
    let name = place(&rt, "both.csv")?;
    let link = place(&rt, "link.csv")?;
    fs::write(&rt, name.as_str(), "k\na\n")?;
    fs::hard_link(&rt, name.as_str(), link.as_str())?;
    let in_use = InUse::new(rt.alloc());
    let mut inputs = FileInputs::new(&rt, &in_use, false, None);
    let mut outputs = FileOutputs::new(&rt, &in_use, false);
    let source = inputs.open(name.as_str())?;
    assert!(rt; outputs.create(link.as_str()).is_err());
    inputs.close(name.as_str(), source);
    assert!(rt; outputs.create(link.as_str()).is_err());

    let in_use = InUse::new(rt.alloc());
    let mut inputs = FileInputs::new(&rt, &in_use, false, None);
    let mut outputs = FileOutputs::new(&rt, &in_use, false);
    let sink = outputs.create(link.as_str())?;
    assert!(rt; inputs.open(name.as_str()).is_err());
    outputs.done(link.as_str(), sink, false)?;
    let held = fs::read_to_string(&rt, link.as_str())?;
    assert_eq!(rt; held.as_str(), "k\na\n");
    fs::remove_file(&rt, name.as_str())?;
    fs::remove_file(&rt, link.as_str())?;
    Ok(())
}

#[test]
fn a_file_that_a_killed_run_left_is_kept(rt: HostRuntime) -> Result<(), Fail> {
    let name = place(&rt, "again.csv")?;
    let left = format!(in rt.alloc(); "{name}.spill-part-0")?;
    fs::write(&rt, left.as_str(), "a part")?;
    let in_use = InUse::new(rt.alloc());
    let mut outputs = FileOutputs::new(&rt, &in_use, false);
    let sink = outputs.create(name.as_str())?;
    outputs.done(name.as_str(), sink, true)?;
    let held = fs::read_to_string(&rt, left.as_str())?;
    assert_eq!(rt; held.as_str(), "a part");
    fs::remove_file(&rt, name.as_str())?;
    fs::remove_file(&rt, left.as_str())?;
    Ok(())
}

// A writer that is full.
#[derive(Drop)]
struct Full;

impl Write for Full {
    fn write(&mut self, _buf: &[u8]) -> io::Result<usize> {
        Err(io::Error::from(io::ErrorKind::StorageFull))
    }

    fn flush(&mut self) -> io::Result<()> {
        Ok(())
    }
}

#[test]
fn a_writer_that_fails_is_a_fault_that_counts(rt: HostRuntime) {
    let mut report = Output::new(Full);
    assert!(rt; report.write(b"x").is_err());
    assert!(rt; report.write(b"x").is_err());
    assert_eq!(rt; report.faults(), 2);
}

#[test]
fn a_line_that_is_not_written_is_told_all_the_same(rt: HostRuntime) {
    let mut report = Report::new(rt.alloc(), Full);
    assert!(rt; report.write(b"4 header left\n").is_err());
    assert_eq!(rt; report.text(), "4 header left\n");
    let why = report.failed().map(|why| why.kind());
    assert_eq!(rt; why, Some(io::ErrorKind::StorageFull));
}
