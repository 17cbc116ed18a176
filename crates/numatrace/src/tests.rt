//! What no script can check of the built program. `tests/hostile.py` checks the rest.

ghost use Rattle.std.specs.Prelude.{◌<◌, ◌≤◌, ℕ};

use crate::words::{run_words_by, unread_words};
use nm_crew::Alone;
use nm_frames::CopyJob;
use nm_refusing_alloc::Refusing;
use nm_spaces::AddressSpaces;
use nm_threads::Hired;
use nm_trace::{RunCrew, WatchedStream};
use std::alloc::{AllocError, Allocator, Global};
use std::io;
use std::io::{ErrorKind, Write};
use std::marker::PhantomData;
use std::sync::Wait;
use std::sync::atomic::{AtomicUsize, Ordering};
use std::test::Fail;
use std::thread::Threads;

/// The trace of `examples/three_pages.json`: three pages of one process, written on node 0, moved to node 1 and read
/// there.
const TRACE: &str =
    "{\"version\":1,\"machine\":{\"nodes\":[4,4],\"distance\":[[10,20],[20,10]]},\"steps\":[
{\"op\":\"spawn\",\"pid\":1,\"uid\":100,\"home\":0,\"allowed\":[0,1]},
{\"op\":\"map\",\"pid\":1,\"addr\":65536,\"pages\":3},
{\"op\":\"write\",\"pid\":1,\"addr\":65536,\"data\":\"61\"},
{\"op\":\"write\",\"pid\":1,\"addr\":69632,\"data\":\"62\"},
{\"op\":\"write\",\"pid\":1,\"addr\":73728,\"data\":\"63\"},
{\"op\":\"move_pages\",\"caller\":1,\"pid\":0,\"pages\":[65536,69632,73728],\"nodes\":[1,1,1],\"flags\":2},
{\"op\":\"free\",\"node\":0},
{\"op\":\"free\",\"node\":1},
{\"op\":\"pagemap\",\"pid\":1},
{\"op\":\"read\",\"pid\":1,\"addr\":69632,\"len\":2}]}";

const REPORT: &str = "0 spawn ok
1 map segment=0
2 write ok
3 write ok
4 write ok
5 move_pages 0: 1 1 1
6 free 4: 3 0 1 2
7 free 1: 7
8 pagemap 3: 00010000=4 00011000=5 00012000=6
9 read 6200
";

/// A writer that takes one byte in each call, and fails or takes none after this many. It records whether the bytes
/// were a prefix of the report, and counts lines.
#[derive(Drop)]
struct Narrow {
    taken: usize,
    lines: u8,
    is_front: bool,
    most: usize,
    fails: bool,
}

impl Write for Narrow {
    fn write(&mut self, buf: &[u8]) -> io::Result<usize> {
        if self.taken >= self.most {
            if self.fails {
                return Err(io::Error::from(ErrorKind::Other));
            }
            return Ok(0);
        }
        match buf {
            [] => Ok(0),
            [first, ..] => {
                self.is_front = self.is_front && REPORT.as_bytes().get(self.taken) == Some(first);
                self.lines = self.lines.wrapping_add((*first == b'\n') as u8);
                self.taken += 1;
                Ok(1)
            }
        }
    }

    fn flush(&mut self) -> io::Result<()> {
        Ok(())
    }
}

/// The program's words, which are separated by blanks in a text.
fn words_of(alloc: Global, text: &str) -> Result<Vec<String>, AllocError> {
    let mut words = Vec::new(alloc);
    for word in text.split(' ') {
        words.push(String::from_str(alloc, word)?)?;
    }
    Ok(words)
}

/// Runs the program without words on the trace, with a crew. Returns its status, and what it wrote to standard error.
fn run<A: Allocator + Copy + Send + Sync, C: RunCrew<A> + Drop, H: FnOnce(usize) -> C>(
    hire: H,
    alloc: A,
    global: Global,
    out: &mut Narrow,
) -> Result<(u8, Vec<u8>), AllocError>
    requires { (workers : ℕ) → 0 < workers → workers ≤ 64 → H.pre hire workers }
{
    let words = words_of(global, "numatrace")?;
    let mut err = WatchedStream::new(Vec::new(global));
    let mut trace = TRACE.as_bytes();
    let mut watched = WatchedStream::new(out);
    let status = run_words_by(
        hire,
        alloc,
        global,
        words.as_slice(),
        &mut trace,
        &mut watched,
        &mut err,
    );
    Ok((status, err.into_inner()))
}

/// Only a lack of memory is reported as such; `tests/hostile.py` has a word that is not UTF-8.
#[test]
fn prints_why_words_are_unread(rt: HostRuntime) -> Result<(), Fail> {
    let mut err = Vec::new(rt.alloc());
    let status = unread_words(ErrorKind::OutOfMemory, &mut err);
    assert!(rt;
        status == 3
            && err.as_slice() == b"numatrace: host memory refused after 0 steps\n".as_slice()
    );
    Ok(())
}

/// Whether a writer that fails, or takes no byte, after this many bytes is reported, and got a prefix of the report.
fn is_write_fault(global: Global, most: usize, fails: bool) -> Result<bool, AllocError> {
    let mut out = Narrow {
        taken: 0,
        lines: 0,
        is_front: true,
        most,
        fails,
    };
    let _work: PhantomData<(CopyJob<Global>, AddressSpaces<Global>)> = PhantomData;
    let (status, err) = run(|_: usize| -> Alone { Alone }, global, global, &mut out)?;
    let printed = status == 4 && err.as_slice() == b"numatrace: write fault\n".as_slice();
    Ok(printed && out.is_front && out.taken == most)
}

#[test]
fn fails_with_its_writer(rt: HostRuntime) -> Result<(), Fail> {
    for most in 0..REPORT.len() {
        let printed = is_write_fault(rt.alloc(), most, true)?
            && is_write_fault(rt.alloc(), most, false)?;
        assert!(rt; printed, "after {most} bytes");
    }
    Ok(())
}

/// Words, and the number of workers that they ask for.
const WORDS: [(&str, usize); 3] = [
    ("numatrace", 4),
    ("numatrace --workers=2", 2),
    ("numatrace --workers 64", 64),
];

/// How many workers the program hires with these words, if its report is right.
fn workers_hired(global: Global, text: &str) -> Result<Option<usize>, AllocError> {
    let _work: PhantomData<(CopyJob<Global>, AddressSpaces<Global>)> = PhantomData;
    let words = words_of(global, text)?;
    let hired = AtomicUsize::new(0);
    let mut written = WatchedStream::new(Vec::new(global));
    let status = run_words_by(
        |workers: usize| {
            hired.store(workers, Ordering::SeqCst);
            Alone
        },
        global,
        global,
        words.as_slice(),
        &mut TRACE.as_bytes(),
        &mut written,
        &mut WatchedStream::new(Vec::new(global)),
    );
    let is_right = status == 0 && written.get_ref().as_slice() == REPORT.as_bytes();
    Ok(is_right.then_some(hired.load(Ordering::SeqCst)))
}

#[test]
fn as_many_workers_as_asked(rt: HostRuntime) -> Result<(), Fail> {
    for (text, workers) in WORDS {
        assert!(rt;
            workers_hired(rt.alloc(), text)? == Some(workers),
            "at {text}"
        );
    }
    Ok(())
}

/// Whether a run that may have met a refusal reported it, with the number of the steps whose lines it wrote. A step
/// that only looks may have managed with less memory, and then the report is whole.
fn is_reported(status: u8, err: &[u8], out: &Narrow) -> bool {
    let mut text = *b"numatrace: host memory refused after 0 steps\n";
    text[37] = text[37].wrapping_add(out.lines); // the 0 before "steps"
    let printed = status == 3 && err == text.as_slice();
    let whole = status == 0 && out.taken == REPORT.len();
    out.is_front && (printed || whole)
}

/// Runs the program on the trace while the allocation with this number is refused. Returns whether it reached that
/// allocation, and whether it reported what it should.
fn run_refused<R: Threads + Wait>(
    rt: &R,
    global: Global,
    heap: &Refusing<Global>,
    number: u64,
) -> Result<(bool, bool), AllocError> {
    let mut out = Narrow {
        taken: 0,
        lines: 0,
        is_front: true,
        most: usize::MAX,
        fails: true,
    };
    heap.refuse(number);
    let _work: PhantomData<(CopyJob<&Refusing<Global>>, AddressSpaces<&Refusing<Global>>)> =
        PhantomData;
    let hire = |workers: usize| -> Hired<'_, R>
        requires { (0 < workers) × (workers ≤ 64) }
    { Hired::new(rt, workers) };
    let (status, err) = run(hire, heap, global, &mut out)?;
    let met = heap.asked_since(number) >= number;
    Ok((met, is_reported(status, err.as_slice(), &out)))
}

#[test]
fn reports_refused_memory(rt: HostRuntime) -> Result<(), Fail> {
    let heap = Refusing::new(rt.alloc());
    let mut refused = 0u64;
    for number in 1..10_000u64 {
        let (met, printed) = run_refused(&rt, rt.alloc(), &heap, number)?;
        assert!(rt; printed, "allocation {number}");
        if !met {
            refused = number - 1;
            break;
        }
    }
    assert!(rt; refused > 30, "{refused} refusals");
    Ok(())
}
