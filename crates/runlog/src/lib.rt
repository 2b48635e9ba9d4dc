// Reading a log (document 01, "Read a log": 21 to 27) into memory.
#![tactic(auto)]

ghost use Rattle.std.specs.Prelude.{◌≡◌, ℕ, ◌+◌, ◌*◌, ◌≤◌, length, get_or, IfOk, IfErr, OnOk};
ghost use Rattle.scenario.specs.Log.{most_lines};
ghost use Rattle.runlog.specs.Log.{head_of, line_of, lines_from, answer, lines_read, lay};
ghost use Rattle.runlog.specs.Numbered.{numbered_head, numbered_line, numbered_lines, numbered};
ghost use Rattle.refusal.specs.Refusal.{log_number};
ghost use Rattle.refusal.specs.declared.Refusal.TheVariants.{Log};
ghost use Rattle.runlog.specs.Held.{words_of, Loaded};

use refusal::{LogRefusal, Refusal};

// Document 01's limits, and the bytes of the first line and of a line.
const MOST_LINES: u32 = 4000;

const LAST_EVENT: u32 = 63;

const FIRST_BYTES: usize = 28;

const LINE_BYTES: usize = 15;

// A line that was read.
#[derive(Clone, Copy)]
pub struct Line {
    pub tick: u32,
    pub event: u32,
}

// How long a log is: its number of lines, and the ticks that it begins and ends with.
#[derive(Clone, Copy)]
pub struct Extent {
    pub lines: usize,
    pub start: u32,
    pub close: u32,
}

// Why a log is refused, and the line that it is about (0: the first line).
#[derive(Clone, Copy)]
pub struct Refused {
    pub refusal: LogRefusal,
    pub line: u32,
}

// The first line is refused, or the log as a whole.
impl From<LogRefusal> for Refused {
    ghost from_gives = { λ refusal r. r ≡ record { refusal = refusal; line = 0 } };

    fn from(refusal: LogRefusal) -> Refused {
        Refused { refusal, line: 0 }
    }
}

impl From<Refused> for Refusal {
    ghost from_gives = { λ refused r. r ≡ Log refused.refusal };

    fn from(refused: Refused) -> Refusal {
        Refusal::Log(refused.refusal)
    }
}

// Reads a log: gives its line count, or refuses it. It writes nowhere.
pub fn read_log(log: &[u8]) -> Result<u32, Refusal>
    ensures { numbered_lines result ≡ lines_read log.now }
{
    let mut run = run::Run::new();
    let extent = load_log(log, &mut run)?;
    Ok(extent.lines as u32)
}

// The first line, and whether the length is what its line count asks.
fn first_line(log: &[u8]) -> Result<Extent, LogRefusal>
    ensures { numbered_head result ≡ head_of log.now }
{
    if log.len() < FIRST_BYTES {
        return Err(LogRefusal::HeadMalformed);
    }
    let Some(count) = columns::number(log, 5) else {
        return Err(LogRefusal::HeadMalformed);
    };
    let Some(start) = columns::number(&log[5..], 11) else {
        return Err(LogRefusal::HeadMalformed);
    };
    let Some(close) = columns::number(&log[16..], 11) else {
        return Err(LogRefusal::HeadMalformed);
    };
    if log[27] != 10 {
        return Err(LogRefusal::HeadMalformed);
    }
    if MOST_LINES < count {
        return Err(LogRefusal::TooManyLines);
    }
    let n = count as usize;
    if log.len() != FIRST_BYTES + LINE_BYTES * n {
        return Err(LogRefusal::WrongLength);
    }
    Ok(Extent {
        lines: n,
        start,
        close,
    })
}

// A line in 15 bytes, after a line with the tick last: each field's answer is taken apart, and its refusal returns.
fn check_line(line: &[u8], last: u32) -> Result<Line, LogRefusal>
    requires { length line.now ≡ 15 }
    ensures { numbered_line result ≡ line_of last line.now }
{
    let Some(tick) = columns::number(line, 11) else {
        return Err(LogRefusal::LineMalformed);
    };
    let Some(event) = columns::number(&line[11..], 3) else {
        return Err(LogRefusal::LineMalformed);
    };
    if line[14] != 10 {
        return Err(LogRefusal::LineMalformed);
    }
    if LAST_EVENT < event {
        return Err(LogRefusal::EventUnknown);
    }
    if tick < last {
        return Err(LogRefusal::TickBelow);
    }
    Ok(Line { tick, event })
}

// Reads n lines into memory, until one is refused; gives the last tick.
fn read_lines(
    log: &[u8],
    n: usize,
    start: u32,
    words: &mut [u64; run::ROOM],
) -> Result<u32, Refused>
    requires { (n ≤ most_lines) × (28 + 15 * n ≤ length log.now) }
    ensures ok { IfOk result (λ last. ((lines_from log.now 0 n start).number ≡ 0) × (last ≡ (lines_from log.now 0 n start).last)) }
    ensures err { IfErr result (λ r. (log_number r.refusal ≡ (lines_from log.now 0 n start).number) × (r.line ≡ (lines_from log.now 0 n start).line)) }
    ensures words { words.new ≡ lay 1 (words_of (lines_from log.now 0 n start).ticks (lines_from log.now 0 n start).events) words.old }
{
    let mut last = start;
    // What is left of the text goes on by a slice: by `chunks_exact` a log takes longer to read.
    let mut rest = &log[FIRST_BYTES..];
    for i in 0..n {
        match check_line(&rest[..LINE_BYTES], last) {
            Ok(line) => {
                run::enter(words, i + 1, line.tick, line.event);
                last = line.tick;
            }
            Err(refusal) => {
                return Err(Refused {
                    refusal,
                    line: i as u32 + 1,
                });
            }
        }
        rest = &rest[LINE_BYTES..];
    }
    Ok(last)
}

// Reads a log into memory, in which there are zeros: its lines by position, the start before them and the close behind. Where it is refused, the lines are there that come before the refusal, and are not counted.
pub fn load_log(log: &[u8], run: &mut run::Run) -> Result<Extent, Refused>
    requires { (i : ℕ) → get_or run.old.words i 0 ≡ 0 }
    ensures answers { numbered result ≡ answer log.now }
    ensures run { OnOk result (Loaded log.now run.new.words) }
{
    let extent = first_line(log)?;
    let n = extent.lines;
    let last = read_lines(log, n, extent.start, &mut run.words)?;
    if extent.close < last {
        return Err(Refused::from(LogRefusal::CloseBelow));
    }
    run::enter(&mut run.words, 0, extent.start, 0);
    run::enter(&mut run.words, n + 1, extent.close, 0);
    run::enter_lines(&mut run.words, n);
    Ok(extent)
}
