//! The answers of calls, as the lines of their steps.

ghost use Rattle.std.specs.Prelude.{◌≡◌, ◌++◌, ◌∷◌, ◌≤◌, length, map, decimal, codes};
ghost use Rattle.std.specs.Fmt.{signed_decimal};
ghost use Rattle.std.specs.List.{flat_map};
ghost use Rattle.std.specs.Option.{unwrap_or, option_map};
ghost use Rattle.hex.specs.Hex.{encode_lower};
ghost use Rattle.nm_calls.specs.definitions.Answers.{Refusal};
ghost use Rattle.nm_calls.specs.definitions.Maps.{lines_shown};
ghost use Rattle.nm_calls.specs.definitions.Outcome.{accesses_asked, access_answer};
ghost use Rattle.nm_steps.specs.Form.{access_step};
ghost use Rattle.nm_requests.specs.Views.{call_of, shown_during};
ghost use Rattle.nm_calls.specs.views.Answers.{answer_of};
ghost use Rattle.nm_trace.specs.definitions.Report.{word_of, each_after_space, entry_text, answer_text, text_of, access_lines, answers_in, access_line};
ghost use Rattle.nm_streams.specs.Waiting.{Puts};
ghost use Rattle.nm_model.specs.views.Asked.{access_shown};
ghost use Rattle.nm_pool.specs.views.Accesses.{answer_shown};

use nm_calls::{
    ADDRESS_BYTES, Access, AccessAnswer, Answer, Call, InFlight, PagemapEntry, Totals,
    address_bytes,
};
use nm_streams::{Block, ReportingWriter};
use nm_types::{Errno, FrameId};
use std::alloc::Allocator;

/// How many bytes are printed at a time.
const PIECE_BYTES: usize = 256;

/// The word for a call.
fn word<A: Allocator + Copy + Send + Sync>(call: &Call<A>) -> &'static str
    ensures { result.now ≡ word_of (call_of call.now) }
{
    match call {
        Call::Spawn(_) => "spawn",
        Call::Map(_) => "map",
        Call::Attach(_) => "attach",
        Call::Unmap { .. } => "unmap",
        Call::Exit { .. } => "exit",
        Call::Pin { .. } => "pin",
        Call::Unpin { .. } => "unpin",
        Call::Read { .. } => "read",
        Call::Write { .. } => "write",
        Call::MovePages(_) => "move_pages",
        Call::MigratePages(_) => "migrate_pages",
        Call::Mbind(_) => "mbind",
        Call::Offline { .. } => "offline",
        Call::Online { .. } => "online",
        Call::Query(_) => "query",
        Call::FreeList { .. } => "free",
        Call::Pagemap { .. } => "pagemap",
        Call::Vmstat => "vmstat",
        Call::NumaMaps { .. } => "numa_maps",
    }
}

/// Puts a number.
fn push_number<W: ReportingWriter, A: Allocator>(block: &mut Block<A>, writer: &mut W, number: u64)
    ensures { Puts W.contents W.has_failed writer.old block.old writer.new block.new
        (decimal number) }
{
    let mut buffer = itoa::Buffer::new();
    block.push_str(writer, buffer.format(number));
}

/// Puts each frame after a space.
fn push_frames<W: ReportingWriter, A: Allocator>(
    block: &mut Block<A>,
    writer: &mut W,
    frames: &[FrameId],
)
    ensures { Puts W.contents W.has_failed writer.old block.old writer.new block.new
        (each_after_space decimal frames.now) }
{
    let mut buffer = itoa::Buffer::new();
    for frame in frames {
        block.push_byte(writer, b' ');
        block.push_str(writer, buffer.format(frame.number()));
    }
}

/// Puts each status after a space.
fn push_statuses<W: ReportingWriter, A: Allocator>(
    block: &mut Block<A>,
    writer: &mut W,
    statuses: &[i32],
)
    ensures { Puts W.contents W.has_failed writer.old block.old writer.new block.new
        (each_after_space signed_decimal statuses.now) }
{
    let mut buffer = itoa::Buffer::new();
    for status in statuses {
        block.push_byte(writer, b' ');
        block.push_str(writer, buffer.format(*status));
    }
}

/// Puts the number of a frame, or that there is none.
fn push_frame<W: ReportingWriter, A: Allocator>(
    block: &mut Block<A>,
    writer: &mut W,
    frame: Option<FrameId>,
)
    ensures { Puts W.contents W.has_failed writer.old block.old writer.new block.new
        (unwrap_or (option_map decimal frame) (codes "zero")) }
{
    match frame {
        None => block.push_str(writer, "zero"),
        Some(id) => {
            let mut buffer = itoa::Buffer::new();
            block.push_str(writer, buffer.format(id.number()));
        }
    }
}

/// Puts an entry after a space.
fn push_entry<W: ReportingWriter, A: Allocator>(
    block: &mut Block<A>,
    writer: &mut W,
    entry: &PagemapEntry,
)
    ensures { Puts W.contents W.has_failed writer.old block.old writer.new block.new
        (codes " " ++ entry_text (entry.now.vpn, entry.now.frame)) }
{
    let mut address = [0; ADDRESS_BYTES];
    block.push_byte(writer, b' ');
    block.push(writer, address_bytes(entry.vpn, &mut address));
    block.push_byte(writer, b'=');
    push_frame(block, writer, entry.frame);
}

/// Puts each entry after a space.
fn push_entries<W: ReportingWriter, A: Allocator>(
    block: &mut Block<A>,
    writer: &mut W,
    entries: &[PagemapEntry],
)
    ensures { Puts W.contents W.has_failed writer.old block.old writer.new block.new
        (each_after_space entry_text (map (λ e. (e.vpn, e.frame)) entries.now)) }
{
    for entry in entries {
        push_entry(block, writer, entry);
    }
}

/// Puts a number and a colon.
fn push_count<W: ReportingWriter, A: Allocator>(block: &mut Block<A>, writer: &mut W, count: usize)
    ensures { Puts W.contents W.has_failed writer.old block.old writer.new block.new
        (decimal count ++ codes ":") }
{
    let mut buffer = itoa::Buffer::new();
    block.push_str(writer, buffer.format(count));
    block.push_byte(writer, b':');
}

/// Puts the two totals, each after its name.
fn push_totals<W: ReportingWriter, A: Allocator>(
    block: &mut Block<A>,
    writer: &mut W,
    totals: Totals,
)
    ensures { Puts W.contents W.has_failed writer.old block.old writer.new block.new
        ((codes "pgmigrate_success " ++ decimal totals.moved)
        ++ (codes " pgmigrate_fail " ++ decimal totals.failed)) }
{
    block.push_str(writer, "pgmigrate_success ");
    push_number(block, writer, totals.moved);
    block.push_str(writer, " pgmigrate_fail ");
    push_number(block, writer, totals.failed);
}

/// Puts each line after a line feed.
fn push_lines<W: ReportingWriter, A: Allocator>(
    block: &mut Block<A>,
    writer: &mut W,
    lines: &[String<A>],
)
    ensures { Puts W.contents W.has_failed writer.old block.old writer.new block.new
        (flat_map (λ line. 10 ∷ line) (lines_shown lines.now)) }
{
    for line in lines {
        block.push_byte(writer, b'\n');
        block.push_str(writer, line.as_str());
    }
}

/// The hexadecimal digits of a few bytes, which are written to `digits`.
fn hex_of<'a>(bytes: &[u8], digits: &'a mut [u8; 2 * PIECE_BYTES]) -> &'a [u8]
    requires { length bytes.now ≤ 256 }
    ensures { result.now ≡ encode_lower bytes.now }
{
    let room = &mut digits[..2 * bytes.len()];
    let _ = hex::encode_to_slice(bytes, room);
    room
}

/// Puts bytes as hexadecimal digits.
fn push_bytes<W: ReportingWriter, A: Allocator>(block: &mut Block<A>, writer: &mut W, bytes: &[u8])
    ensures { Puts W.contents W.has_failed writer.old block.old writer.new block.new
        (encode_lower bytes.now) }
{
    let mut digits = [0; 2 * PIECE_BYTES];
    let mut at = 0;
    while at < bytes.len() {
        let (_, rest) = bytes.split_at(at);
        let (piece, _) = rest.split_at(rest.len().min(PIECE_BYTES));
        block.push(writer, hex_of(piece, &mut digits));
        at += piece.len();
    }
}

/// Puts an answer.
#[tactic(auto, unfolding(crate::specs::definitions::Report::answer_text))]
fn push_answer<W: ReportingWriter, A: Allocator + Copy + Send + Sync>(
    block: &mut Block<A>,
    writer: &mut W,
    answer: &Answer<A>,
)
    ensures { Puts W.contents W.has_failed writer.old block.old writer.new block.new
        (answer_text (answer_of answer.now)) }
{
    match answer {
        Answer::Done => block.push_str(writer, "ok"),
        Answer::Segment(segment) => {
            block.push_str(writer, "segment=");
            push_number(block, writer, u64::from(*segment));
        }
        Answer::Bytes(bytes) => push_bytes(block, writer, bytes.as_slice()),
        Answer::Statuses(moved) => {
            push_count(block, writer, moved.failed);
            push_statuses(block, writer, moved.statuses.as_slice());
        }
        Answer::Failed(failed) => push_number(block, writer, *failed as u64),
        Answer::Frames(frames) => {
            push_count(block, writer, frames.len());
            push_frames(block, writer, frames.as_slice());
        }
        Answer::Entries(entries) => {
            push_count(block, writer, entries.len());
            push_entries(block, writer, entries.as_slice());
        }
        Answer::Totals(totals) => push_totals(block, writer, *totals),
        Answer::Lines(lines) => {
            push_number(block, writer, lines.len() as u64);
            push_lines(block, writer, lines.as_slice());
        }
    }
}

/// Puts the front of a step's line: its number and its word, each followed by a space.
fn push_front<W: ReportingWriter, A: Allocator + Copy + Send + Sync>(
    block: &mut Block<A>,
    writer: &mut W,
    k: usize,
    call: &Call<A>,
)
    ensures { Puts W.contents W.has_failed writer.old block.old writer.new block.new
        (decimal k ++ codes " " ++ word_of (call_of call.now) ++ codes " ") }
{
    let mut buffer = itoa::Buffer::new();
    block.push_str(writer, buffer.format(k));
    block.push_byte(writer, b' ');
    block.push_str(writer, word(call));
    block.push_byte(writer, b' ');
}

/// The word for an access.
fn access_word<A: Allocator + Copy>(access: &Access<A>) -> &'static str
    ensures { result.now ≡ word_of (access_step (access_shown access.now)) }
{
    match access {
        Access::Read { .. } => "read",
        Access::Write { .. } => "write",
    }
}

/// Puts the answer to an access.
#[tactic(auto, unfolding(crate::specs::definitions::Report::answer_text))]
fn push_access_answer<W: ReportingWriter, A: Allocator + Copy>(
    block: &mut Block<A>,
    writer: &mut W,
    answer: &AccessAnswer<A>,
)
    ensures { Puts W.contents W.has_failed writer.old block.old writer.new block.new
        (answer_text (access_answer (answer_shown answer.now))) }
{
    match answer {
        AccessAnswer::Bytes(bytes) => push_bytes(block, writer, bytes.as_slice()),
        AccessAnswer::Done => block.push_str(writer, "ok"),
        AccessAnswer::Held => block.push_str(writer, "held"),
        AccessAnswer::Refused(refusal) => {
            block.push_str(writer, "error ");
            block.push_str(writer, refusal.name());
        }
    }
}

/// Puts the front of the line of access j of a step: both numbers and the word of the access, followed by a space.
fn push_access_front<W: ReportingWriter, A: Allocator + Copy>(
    block: &mut Block<A>,
    writer: &mut W,
    step: usize,
    j: usize,
    access: &Access<A>,
)
    ensures { Puts W.contents W.has_failed writer.old block.old writer.new block.new
        (decimal step ++ codes "." ++ decimal j ++ codes " "
        ++ word_of (access_step (access_shown access.now)) ++ codes " ") }
{
    let mut buffer = itoa::Buffer::new();
    block.push_str(writer, buffer.format(step));
    block.push_byte(writer, b'.');
    block.push_str(writer, buffer.format(j));
    block.push_byte(writer, b' ');
    block.push_str(writer, access_word(access));
    block.push_byte(writer, b' ');
}

/// Puts the line of access j of step k.
#[tactic(auto, unfolding(crate::specs::definitions::Report::access_line))]
fn push_access<W: ReportingWriter, A: Allocator + Copy>(
    block: &mut Block<A>,
    writer: &mut W,
    k: usize,
    j: usize,
    access: &Access<A>,
    answer: &AccessAnswer<A>,
)
    ensures { Puts W.contents W.has_failed writer.old block.old writer.new block.new
        (access_line k j (access_shown access.now) (answer_shown answer.now)) }
{
    push_access_front(block, writer, k, j, access);
    push_access_answer(block, writer, answer);
    block.push_byte(writer, b'\n');
}

/// Puts the lines of the accesses of step k, one after another, each with the answer at its place.
fn push_accesses<W: ReportingWriter, A: Allocator + Copy + Send + Sync>(
    block: &mut Block<A>,
    writer: &mut W,
    k: usize,
    during: &[InFlight<A>],
    answers: &[AccessAnswer<A>],
)
    ensures { Puts W.contents W.has_failed writer.old block.old writer.new block.new
        (access_lines k 0 (shown_during during.now) (map answer_shown answers.now)) }
{
    for (j, answer) in answers.iter().enumerate() {
        let Some(flight) = during.get(j) else {
            return;
        };
        push_access(block, writer, k, j, &flight.access, answer);
    }
}

/// Puts the lines of the accesses of step k that were made while pages moved.
#[tactic(auto, unfolding(nm_calls::specs::definitions::Outcome::accesses_asked))]
fn push_flights<W: ReportingWriter, A: Allocator + Copy + Send + Sync>(
    block: &mut Block<A>,
    writer: &mut W,
    k: usize,
    call: &Call<A>,
    answer: &Answer<A>,
)
    ensures { Puts W.contents W.has_failed writer.old block.old writer.new block.new
        (access_lines k 0 (accesses_asked (call_of call.now)) (answers_in (answer_of answer.now))) }
{
    match call {
        Call::MovePages(request) => match answer {
            Answer::Statuses(moved) => {
                let during = request.during.as_slice();
                push_accesses(block, writer, k, during, moved.answers.as_slice());
            }
            _ => {}
        },
        _ => {}
    }
}

/// Puts the lines of step k, whose call was not refused: its own, those of an answer of several lines, and those of the
/// accesses that were made while pages moved.
#[tactic(auto, unfolding(crate::specs::definitions::Report::text_of, crate::specs::definitions::Report::line_of))]
pub(crate) fn push_text<W: ReportingWriter, A: Allocator + Copy + Send + Sync>(
    block: &mut Block<A>,
    writer: &mut W,
    k: usize,
    call: &Call<A>,
    answer: &Answer<A>,
)
    ensures { Puts W.contents W.has_failed writer.old block.old writer.new block.new
        (text_of k (call_of call.now) (answer_of answer.now)) }
{
    push_front(block, writer, k, call);
    push_answer(block, writer, answer);
    block.push_byte(writer, b'\n');
    push_flights(block, writer, k, call, answer);
}

/// Puts the line of step k, whose call was refused.
#[tactic(auto, unfolding(crate::specs::definitions::Report::text_of, crate::specs::definitions::Report::line_of, crate::specs::definitions::Report::answer_text))]
pub(crate) fn push_refusal<W: ReportingWriter, A: Allocator + Copy + Send + Sync>(
    block: &mut Block<A>,
    writer: &mut W,
    k: usize,
    call: &Call<A>,
    errno: Errno,
)
    ensures { Puts W.contents W.has_failed writer.old block.old writer.new block.new
        (text_of k (call_of call.now) (Refusal errno)) }
{
    push_front(block, writer, k, call);
    block.push_str(writer, "error ");
    block.push_str(writer, errno.name());
    block.push_byte(writer, b'\n');
}
