//! Runs over memory, and texts that are put together.

use fp_app::{run, run_within};
use fp_ends::{MemClock, MemSink, MemSource};
use std::alloc::{AllocError, Global};

/// The words of a line.
pub fn words_of(alloc: Global, line: &str) -> Result<Vec<String>, AllocError> {
    let mut words = Vec::new(alloc);
    for word in line.split_whitespace() {
        words.push(String::from_str(alloc, word)?)?;
    }
    Ok(words)
}

/// The number of the status with which a run ends, and the bytes that it writes.
pub fn run_over(
    alloc: Global,
    line: &str,
    mut source: MemSource,
    mut sink: MemSink,
) -> Result<(u8, Vec<u8>), AllocError> {
    let ran = run(alloc, &words_of(alloc, line)?, &mut source, &mut sink);
    Ok((ran.status.code(), sink.bytes().to_vec(alloc)?))
}

/// The same over a source and a sink without faults.
pub fn run_on(alloc: Global, line: &str, input: &str) -> Result<(u8, Vec<u8>), AllocError> {
    let source = source_of(alloc, input.as_bytes(), 4096, &[])?;
    let sink = sink_of(alloc, 20_000, 7, &[])?;
    run_over(alloc, line, source, sink)
}

/// The same by a clock whose looks and glances show these milliseconds, and fail after them.
pub fn run_by(
    alloc: Global,
    line: &str,
    input: &str,
    shown: &[u64],
) -> Result<(u8, Vec<u8>), AllocError> {
    let (status, text, _) = noted_by(alloc, line, input, shown)?;
    Ok((status, text))
}

// The number of the status of a run over these ends.
fn status_within(
    alloc: Global,
    words: &[String],
    source: &mut MemSource,
    sink: &mut MemSink,
    clock: &mut MemClock,
    notes: &mut MemSink,
) -> u8 {
    run_within(alloc, words, source, sink, clock, notes)
        .status
        .code()
}

/// The same, with what is noted meanwhile.
pub fn noted_by(
    alloc: Global,
    line: &str,
    input: &str,
    shown: &[u64],
) -> Result<(u8, Vec<u8>, Vec<u8>), AllocError> {
    let mut source = source_of(alloc, input.as_bytes(), 4096, &[])?;
    let mut sink = sink_of(alloc, 20_000, 7, &[])?;
    let mut clock = MemClock::new(shown.to_vec(alloc)?);
    let words = words_of(alloc, line)?;
    let mut notes = sink_of(alloc, 20_000, 11, &[])?;
    let status = status_within(
        alloc,
        &words,
        &mut source,
        &mut sink,
        &mut clock,
        &mut notes,
    );
    let text = sink.bytes().to_vec(alloc)?;
    Ok((status, text, notes.bytes().to_vec(alloc)?))
}

/// A source of these bytes. The calls with these numbers fail.
pub fn source_of(
    alloc: Global,
    input: &[u8],
    step: usize,
    fails: &[u64],
) -> Result<MemSource, AllocError> {
    Ok(MemSource::new(input.to_vec(alloc)?, step.max(1), fails.to_vec(alloc)?))
}

/// A sink with room for so many bytes. The calls with these numbers fail.
pub fn sink_of(
    alloc: Global,
    room: usize,
    step: usize,
    fails: &[u64],
) -> Result<MemSink, AllocError> {
    MemSink::new(alloc, room, step.max(1), fails.to_vec(alloc)?)
}

/// A text in which what stands first is replaced, or the text itself where it stands nowhere.
pub fn with(alloc: Global, text: &str, old: &str, new: &str) -> Result<String, AllocError> {
    match text.split_once(old) {
        Some((front, back)) => format!(in alloc; "{front}{new}{back}"),
        None => String::from_str(alloc, text),
    }
}

/// A certificate to check: the instance, the certificate, what is replaced in it and by what, the
/// status' number, and the line that is printed.
pub type Checked = (
    &'static str,
    &'static str,
    &'static str,
    &'static str,
    u8,
    &'static str,
);

/// The input of the first row on which `check` ends otherwise, or whose certificate lacks what is
/// replaced.
pub fn wrong_row(alloc: Global, rows: &[Checked]) -> Result<Option<String>, AllocError> {
    for (instance, certificate, old, new, code, want) in rows {
        let changed = with(alloc, certificate, old, new)?;
        let input = format!(in alloc; "{instance}{changed}")?;
        let (status, text) = run_on(alloc, "check", input.as_str())?;
        if !certificate.contains(*old) || status != *code || text.as_slice() != want.as_bytes() {
            return Ok(Some(input));
        }
    }
    Ok(None)
}

/// The number of the status with which `check` ends on an input that a text follows, and the bytes
/// that it writes.
pub fn check_on(alloc: Global, input: &str, text: &[u8]) -> Result<(u8, Vec<u8>), AllocError> {
    let mut bytes = input.as_bytes().to_vec(alloc)?;
    bytes.extend_from_slice(text)?;
    let source = source_of(alloc, &bytes, 4096, &[])?;
    let sink = sink_of(alloc, 20_000, 7, &[])?;
    run_over(alloc, "check", source, sink)
}

/// How many lines of a text begin so.
pub fn lines_with(text: &[u8], front: &str) -> usize {
    text.split(|&byte| byte == b'\n')
        .filter(|line| !line.is_empty() && line.starts_with(front.as_bytes()))
        .count()
}

/// How many trucks leave a terminal, by the lines of a text.
pub fn trucks_from(text: &[u8], terminal: &str) -> u32 {
    let Ok(text) = str::from_utf8(text) else {
        return 0;
    };
    let mut trucks: u32 = 0;
    for line in text.lines() {
        let mut fields = line.split(',');
        if fields.next() == Some("truck") && fields.next() == Some(terminal) {
            let count = fields.nth(2).map_or(0, |count| count.parse().unwrap_or(0));
            trucks = trucks.saturating_add(count);
        }
    }
    trucks
}
