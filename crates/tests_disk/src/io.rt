//! Each object of the outside once, and the adapters through the runtime.

use crate::claims::sure;
use lsm_bytes::NoMemory;
use lsm_io::{
    Clock, Failed, Gate, HostClock, HostSessions, ListClock, ListSessions, MemSink, MemSource,
    NoStop, OpenGate, Point, Sessions, Sink, Source, StdSink, StdSource, Stop, StopAt,
};
use std::alloc::Global;

/// What each read answers, and what stands in its room of five bytes then.
const READS: &[(Result<usize, Failed>, [u8; 5])] = &[
    (Ok(5), *b"abcde"),
    (Err(Failed), *b"abcde"),
    (Ok(2), *b"fgcde"),
    (Ok(0), *b"fgcde"),
];

const WRITES: &[(&'static [u8], Result<(), Failed>)] = &[
    (b"ab", Ok(())),
    (b"cdefg", Err(Failed)),
    (b"hi", Err(Failed)),
    (b"", Ok(())),
    (b"j", Ok(())),
];

const TIMES: &[Result<u64, Failed>] = &[Ok(7), Err(Failed), Ok(9), Err(Failed)];

const FIRST: [u8; 20] = *b"0123456789ABCDEFGXYZ";

const SPELLED_SMALL: [u8; 20] = *b"0123456789abcdefgxyz";

const SESSIONS: &[Result<[u8; 20], Failed>] = &[Ok(FIRST), Err(Failed), Err(Failed)];

const LOOKS: &[bool] = &[false, true, true];

fn source(alloc: Global) -> Result<MemSource, NoMemory> {
    let bytes = Vec::from_slice(alloc, b"abcdefg")?;
    Ok(MemSource::new(bytes, vec![in alloc; 2]?))
}

fn read(source: &mut MemSource, into: &mut [u8; 5]) -> Result<usize, Failed> {
    source.read(into)
}

fn are_read(mut source: MemSource, rows: &[(Result<usize, Failed>, [u8; 5])]) -> bool {
    let mut into = [0u8; 5];
    for (answer, bytes) in rows {
        let found = read(&mut source, &mut into);
        if found != *answer || into != *bytes {
            return false;
        }
    }
    true
}

fn a_read_fails(alloc: Global) -> Result<bool, NoMemory> {
    Ok(are_read(source(alloc)?, READS))
}

fn sink(alloc: Global) -> Result<MemSink, NoMemory> {
    let fails = vec![in alloc; (2, 3), (3, 9)]?;
    Ok(MemSink::new(alloc, fails))
}

fn write(sink: &mut MemSink, bytes: &[u8]) -> Result<(), Failed> {
    sink.write(bytes)
}

fn are_written(sink: &mut MemSink, rows: &[(&'static [u8], Result<(), Failed>)]) -> bool {
    for (bytes, answer) in rows {
        let found = write(sink, bytes);
        if found != *answer {
            return false;
        }
    }
    true
}

fn has_taken(sink: &MemSink, bytes: &[u8]) -> bool {
    sink.bytes() == bytes
}

fn writes_fail(alloc: Global) -> Result<bool, NoMemory> {
    let mut sink = sink(alloc)?;
    Ok(are_written(&mut sink, WRITES) && has_taken(&sink, b"abcdehij"))
}

fn clock(alloc: Global) -> Result<ListClock, NoMemory> {
    let values = vec![in alloc; 7, 9]?;
    Ok(ListClock::new(values, vec![in alloc; 2]?))
}

fn now(clock: &mut ListClock) -> Result<u64, Failed> {
    clock.now()
}

fn are_told(mut clock: ListClock, rows: &[Result<u64, Failed>]) -> bool {
    for want in rows {
        let found = now(&mut clock);
        if found != *want {
            return false;
        }
    }
    true
}

fn a_clock_ends(alloc: Global) -> Result<bool, NoMemory> {
    Ok(are_told(clock(alloc)?, TIMES))
}

fn sessions(alloc: Global) -> Result<ListSessions, NoMemory> {
    let names = vec![in alloc; FIRST, SPELLED_SMALL, FIRST]?;
    Ok(ListSessions::new(names, Vec::new(alloc)))
}

fn next(sessions: &mut ListSessions) -> Result<[u8; 20], Failed> {
    sessions.next()
}

fn are_given(mut sessions: ListSessions, rows: &[Result<[u8; 20], Failed>]) -> bool {
    for want in rows {
        let found = next(&mut sessions);
        if found != *want {
            return false;
        }
    }
    true
}

fn sessions_end(alloc: Global) -> Result<bool, NoMemory> {
    Ok(are_given(sessions(alloc)?, SESSIONS))
}

fn look(stop: &mut StopAt) -> bool {
    stop.look()
}

fn are_looks(mut stop: StopAt, rows: &[bool]) -> bool {
    for want in rows {
        let found = look(&mut stop);
        if found != *want {
            return false;
        }
    }
    true
}

fn a_stop_begins() -> bool {
    are_looks(StopAt::new(2), LOOKS)
}

fn nothing_stops() -> bool {
    !NoStop::new().look()
}

fn a_gate_is_passed() -> bool {
    OpenGate.reached(Point::MergeStep);
    true
}

fn a_failure_is_printed(alloc: Global) -> Result<bool, NoMemory> {
    let text = format!(in alloc; "{Failed}")?;
    Ok(text.as_str() == "a call to the outside failed")
}

/// The first byte that a source gives and how many it gave, by its bound alone.
fn first_of<S: Source>(source: &mut S) -> Result<(usize, u8), Failed> {
    let mut into = [0u8; 1];
    let count = source.read(&mut into)?;
    Ok((count, into[0]))
}

fn input_is_read(rt: HostRuntime) -> bool {
    match first_of(&mut StdSource::new(rt)) {
        Ok((count, byte)) => count == 1 || byte == 0,
        Err(_) => false,
    }
}

fn output_is_written(rt: HostRuntime) -> bool {
    let answer = StdSink::new(rt).write(b"written by the sink\n");
    answer.is_ok()
}

fn time_is_told(rt: HostRuntime) -> bool {
    match HostClock::new(rt).now() {
        Ok(time) => 1_700_000_000 < time,
        Err(_) => false,
    }
}

fn host_name(sessions: &mut HostSessions<HostRuntime>) -> Result<[u8; 20], Failed> {
    sessions.next()
}

fn is_session(name: &[u8; 20]) -> bool {
    name.iter()
        .all(|byte| byte.is_ascii_digit() || byte.is_ascii_uppercase())
}

fn are_two_names(sessions: &mut HostSessions<HostRuntime>) -> Result<bool, Failed> {
    let first = host_name(sessions)?;
    let second = host_name(sessions)?;
    Ok(first != second && is_session(&first) && is_session(&second))
}

fn names_differ(rt: HostRuntime) -> bool {
    are_two_names(&mut HostSessions::new(rt)) == Ok(true)
}

#[test]
fn a_source_fails_at_its_second_read_and_goes_on(rt: HostRuntime) {
    sure(&rt, a_read_fails(rt.alloc()));
}

#[test]
fn a_sink_takes_three_bytes_and_then_fails(rt: HostRuntime) {
    sure(&rt, writes_fail(rt.alloc()));
}

#[test]
fn lists_end_and_stops_begin(rt: HostRuntime) {
    sure(&rt, a_clock_ends(rt.alloc()));
    sure(&rt, sessions_end(rt.alloc()));
    sure(&rt, Ok(a_stop_begins()));
    sure(&rt, Ok(nothing_stops()));
    sure(&rt, Ok(a_gate_is_passed()));
    sure(&rt, a_failure_is_printed(rt.alloc()));
}

#[test]
fn the_adapters_reach_the_system(rt: HostRuntime) {
    sure(&rt, Ok(input_is_read(rt)));
    sure(&rt, Ok(output_is_written(rt)));
    sure(&rt, Ok(time_is_told(rt)));
    sure(&rt, Ok(names_differ(rt)));
}
