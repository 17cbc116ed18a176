//! What the program's words ask for.

ghost use Rattle.std.specs.Prelude.{◌≡◌, ◌<◌, ◌≤◌, IfOk, map, string_bytes};
ghost use Rattle.clap.specs.Words.{FailsBy};
ghost use Rattle.nm_words.specs.Words.{refusals_of, workers_asked, workers_of};

use clap::builder::ValueParser;
use clap::{Arg, ArgAction, Command, Error};
use std::alloc::Global;

/// How many workers copy if the words do not say.
const WORKERS: usize = 4;

/// What `--version` prints after the program's name.
const VERSION: &str = "1.1.0";

/// What `--help` prints before the options.
const ABOUT: &str =
    "Plays a trace of page migration calls on a modelled NUMA machine.\nThe trace is read from standard input as JSON, and its report is written to standard output.";

/// What `--help` prints after the options.
const STATUSES: &str =
    "Exit status: 0 after a whole report, 2 for a bad trace or bad words, 3 where the host refused memory, 4 where reading or writing failed.\nThe man page docs/numatrace.1 has the steps of a trace and what they answer.";

/// How many workers the words ask for: 1 to 64 with `--workers`, and 4 if it is not given. Any other word is refused.
pub fn read_words(heap: Global, words: &[String]) -> Result<usize, Error>
    ensures within { IfOk result (λ workers. (0 < workers) × (workers ≤ 64)) }
    ensures number { IfOk result (λ workers. workers ≡ workers_asked (map string_bytes words.now)) }
    ensures refused { FailsBy (refusals_of (map string_bytes words.now)) result }
{
    let workers = Arg::new(heap, "workers")
        .long("workers")
        .value_name("N")
        .help("How many workers copy pages, 1 to 64: the report is the same")
        .default_value("4")
        .action(ArgAction::Set)
        .value_parser(ValueParser::unsigned(1, 64));
    let command = Command::new(heap, "numatrace")
        .version(VERSION)
        .about(ABOUT)
        .after_help(STATUSES)
        .arg(workers)?;
    let matches = command.try_get_matches_from(words)?;
    Ok(workers_of(matches.get_one::<usize>("workers")))
}

/// How many workers copy if this number was read from the words: 4 if it is not from 1 to 64, or none was read.
fn workers_of(count: Option<usize>) -> usize
    ensures within { (0 < result) × (result ≤ 64) }
    ensures number { result ≡ workers_of count }
{
    match count {
        Some(count) if count > 0 && count <= 64 => count,
        _ => WORKERS,
    }
}
