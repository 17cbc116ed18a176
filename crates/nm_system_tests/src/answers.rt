//! The answers of calls as texts of one line. An entry and a free frame are shown by their numbers.

use crate::traces::Heap;
use nm_calls::{AccessAnswer, Answer, Moved, PagemapEntry};
use nm_types::FrameId;
use std::alloc::AllocError;

/// Appends the frames of entries.
fn put_entries(text: &mut String, entries: &[PagemapEntry]) -> Result<(), AllocError> {
    for entry in entries {
        match entry.frame {
            Some(frame) => write!(text, "{} ", frame.number())?,
            None => text.push_str("zero ")?,
        }
    }
    Ok(())
}

/// Appends free frames.
fn put_frames(text: &mut String, frames: &[FrameId]) -> Result<(), AllocError> {
    for frame in frames {
        write!(text, "{} ", frame.number())?;
    }
    Ok(())
}

/// Appends lines.
fn put_lines(text: &mut String, lines: &[String<Heap<'_>>]) -> Result<(), AllocError> {
    for line in lines {
        write!(text, "{} ", line.as_str())?;
    }
    Ok(())
}

/// Appends bytes.
fn put_bytes(text: &mut String, bytes: &[u8]) -> Result<(), AllocError> {
    write!(text, "{bytes:?} ")
}

/// Appends the answer to an access.
fn put_access(text: &mut String, answer: &AccessAnswer<Heap<'_>>) -> Result<(), AllocError> {
    match answer {
        AccessAnswer::Bytes(bytes) => put_bytes(text, bytes.as_slice()),
        AccessAnswer::Done => text.push_str("done "),
        AccessAnswer::Held => text.push_str("held "),
        AccessAnswer::Refused(errno) => write!(text, "{errno} "),
    }
}

/// Appends the answers to accesses.
fn put_accesses(text: &mut String, answers: &[AccessAnswer<Heap<'_>>]) -> Result<(), AllocError> {
    for answer in answers {
        put_access(text, answer)?;
    }
    Ok(())
}

/// Appends the answer of a batch.
fn put_moved(text: &mut String, moved: &Moved<Heap<'_>>) -> Result<(), AllocError> {
    write!(text, "{}: {:?} ", moved.failed, moved.statuses.as_slice())?;
    put_accesses(text, moved.answers.as_slice())
}

/// Appends a number.
fn put_number(text: &mut String, number: u64) -> Result<(), AllocError> {
    write!(text, "{number} ")
}

/// Appends the answer of a call.
pub(crate) fn put_answer(text: &mut String, answer: &Answer<Heap<'_>>) -> Result<(), AllocError> {
    match answer {
        Answer::Bytes(bytes) => put_bytes(text, bytes.as_slice()),
        Answer::Statuses(moved) => put_moved(text, moved),
        Answer::Failed(failed) => put_number(text, *failed as u64),
        Answer::Frames(frames) => put_frames(text, frames.as_slice()),
        Answer::Entries(entries) => put_entries(text, entries.as_slice()),
        Answer::Totals(totals) => {
            put_number(text, totals.moved)?;
            put_number(text, totals.failed)
        }
        Answer::Lines(lines) => put_lines(text, lines.as_slice()),
        Answer::Done | Answer::Segment(_) => Ok(()),
    }
}
