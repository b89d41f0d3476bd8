use super::*;
use hy_base::{Blob, BytesIn, BytesOut, Cause, NetTape, TextFault};
use hy_order::Verdict;
use hy_record::{Key, Stamp};
use std::alloc::Global;
use std::process::Abort;
use std::test::Fail;

mod network;
mod schedules;

/// A call of the program: the text of its input and how many line feeds stand after it, the
/// numbers of the read, the write and the call of the net that fail, or 0, and what it is to answer and to write.
#[derive(Drop)]
struct Row {
    words: &'static [&'static str],
    text: &'static str,
    line_feeds: usize,
    failing_read: u32,
    failing_write: u32,
    failing_call: u32,
    status: Status,
    written: &'static str,
}

impl Row {
    /// What the call answers over an input and an output in memory, and what it writes.
    fn answer(&self, alloc: Global) -> Result<(Status, String), Fail> {
        let words = self
            .words
            .iter()
            .map(|word| word.to_string(alloc))
            .try_collect(alloc)?;
        let mut text = Vec::from_slice(alloc, self.text.as_bytes())?;
        for _ in 0..self.line_feeds {
            text.push(b'\n')?;
        }
        let mut source = BytesIn::new(Blob::of(text), 7_000, vec![in alloc; self.failing_read]?);
        let mut sink = BytesOut::new(alloc, 4_096, vec![in alloc; self.failing_write]?)?;
        let mut net = NetTape::new(
            alloc,
            Vec::new(alloc),
            16,
            vec![in alloc; self.failing_call]?,
        )?;
        let status = run(alloc, &words, &mut source, &mut sink, &mut net);
        Ok((status, String::from_utf8_lossy(alloc, sink.written())?))
    }
}

/// A call with these words over this text, where no read and no write fails.
fn call_of(
    words: &'static [&'static str],
    text: &'static str,
    status: Status,
    written: &'static str,
) -> Row {
    Row {
        words,
        text,
        line_feeds: 0,
        failing_read: 0,
        failing_write: 0,
        failing_call: 0,
        status,
        written,
    }
}

/// A replay of this text, where no read and no write fails.
fn replay_of(text: &'static str, status: Status, written: &'static str) -> Row {
    call_of(&["replay"], text, status, written)
}

/// A check of this text, where no read and no write fails.
fn check_of(text: &'static str, status: Status, written: &'static str) -> Row {
    call_of(&["check"], text, status, written)
}

/// The status of a report whose first illegal order is of this key.
fn illegal(key: &str, verdict: Verdict) -> Result<Status, Fail> {
    let key = Key::read(key.as_bytes()).ok().ok_or("a key")?;
    Ok(Status::Illegal(key, verdict))
}

/// Makes the calls, each of which has to answer and to write what its row tells.
fn all_answer(rt: &impl Abort, alloc: Global, rows: &[Row]) -> Result<(), Fail> {
    for row in rows {
        let (status, written) = row.answer(alloc)?;
        assert_eq!(rt; status, row.status);
        assert_eq!(rt; written.as_str(), row.written);
    }
    Ok(())
}

/// The status of an input whose first bad line is this one.
fn bad_input(line: u32, cause: Cause) -> Status {
    Status::BadInput(TextFault { line, cause })
}

const PUT_THEN_GET: &str = "hybris 1 f 0 k 1 liars -\nopen\ndo 1 put a 616263\ndo 1 get a\n";

const ITS_REPORT: &str =
    "op 1 1 put a 616263 2 8 done 1 1\nop 2 1 get a 9 13 value 616263 1 1\norder a 1 2\nheld a 1 1 0\nend 2 1\n";

const EMPTY: &str = "hybris 1 f 0 k 1 liars -\n";

const GET_OF_ABSENT_KEY: &str = "hybris 1 f 0 k 1 liars -\nopen\ndo 1 get a\n";

const BAD_HEX: &str = "hybris 1 f 0 k 1 liars -\ndo 1 put a 6\n";

const TWO_PUTS_SWAPPED: &str =
    "op 1 1 put a 01 1 2 done 1 1\nop 2 2 put a 02 3 4 done 2 2\norder a 2 1\nend 2 1\n";

#[test]
fn worked_replays_answer_as_they_should(rt: HostRuntime) -> Result<(), Fail> {
    let none = "op 1 1 get a 2 4 none 0 0\norder a 1\nend 1 1\n";
    let mut failing_read = replay_of(PUT_THEN_GET, Status::ReadFault, "read fault\n");
    failing_read.failing_read = 1;
    let mut failing_write = replay_of(PUT_THEN_GET, Status::WriteFault, "");
    failing_write.failing_write = 1;
    let mut longest = replay_of("", bad_input(1, Cause::NoHeader), "bad input 1 NoHeader\n");
    longest.line_feeds = 16_777_216;
    let mut too_long = replay_of("", Status::TooLong, "too long\n");
    too_long.line_feeds = 16_777_217;
    all_answer(
        &rt,
        rt.alloc(),
        &[
            replay_of(PUT_THEN_GET, Status::Done, ITS_REPORT),
            replay_of(EMPTY, Status::Done, "end 0 0\n"),
            replay_of(GET_OF_ABSENT_KEY, Status::Done, none),
            replay_of(BAD_HEX, bad_input(2, Cause::BadHex), "bad input 2 BadHex\n"),
            replay_of("", bad_input(1, Cause::NoHeader), "bad input 1 NoHeader\n"),
            failing_read,
            failing_write,
            longest,
            too_long,
        ],
    )
}

#[test]
fn checks_are_refused_as_replays_are(rt: HostRuntime) -> Result<(), Fail> {
    let mut failing_read = check_of(ITS_REPORT, Status::ReadFault, "read fault\n");
    failing_read.failing_read = 1;
    let mut failing_write = check_of(TWO_PUTS_SWAPPED, Status::WriteFault, "");
    failing_write.failing_write = 1;
    let mut longest = check_of("", bad_input(1, Cause::BadWord), "bad input 1 BadWord\n");
    longest.line_feeds = 16_777_216;
    let mut too_long = check_of("", Status::TooLong, "too long\n");
    too_long.line_feeds = 16_777_217;
    all_answer(
        &rt,
        rt.alloc(),
        &[
            check_of("end 0 0\n", Status::Done, "legal 0\n"),
            check_of("", bad_input(1, Cause::NoEnd), "bad input 1 NoEnd\n"),
            check_of(
                PUT_THEN_GET,
                bad_input(1, Cause::BadWord),
                "bad input 1 BadWord\n",
            ),
            failing_read,
            failing_write,
            longest,
            too_long,
        ],
    )
}

#[test]
fn checker_real_time(rt: HostRuntime) -> Result<(), Fail> {
    let early = illegal("a", Verdict::Early(1, 2))?;
    let row = check_of(TWO_PUTS_SWAPPED, early, "illegal a early 1 2\n");
    all_answer(&rt, rt.alloc(), &[row])
}

#[test]
fn checker_verdicts(rt: HostRuntime) -> Result<(), Fail> {
    all_answer(
        &rt,
        rt.alloc(),
        &[
            check_of(ITS_REPORT, Status::Done, "legal 1\n"),
            check_of(
                "op 1 1 put a 616263 2 8 done 1 1\nop 2 1 get a 9 13 value 616263 1 1\norder a 1 2\nheld a 1 1 0\n",
                bad_input(5, Cause::NoEnd),
                "bad input 5 NoEnd\n",
            ),
            check_of(
                "op 1 1 put a 616263 2 8 done 1 1\nop 2 1 get a 9 13 value 616263 1 1\norder a 1\nheld a 1 1 0\nend 2 1\n",
                illegal("a", Verdict::Missing(2))?,
                "illegal a missing 2\n",
            ),
            check_of(
                "op 1 1 put a 616263 2 8 done 1 1\nop 2 1 get a 9 13 value 616263 1 1\norder a 2 1\nheld a 1 1 0\nend 2 1\n",
                illegal("a", Verdict::Early(1, 2))?,
                "illegal a early 1 2\n",
            ),
        ],
    )
}

#[test]
fn each_verdict_is_told(rt: HostRuntime) -> Result<(), Fail> {
    all_answer(
        &rt,
        rt.alloc(),
        &[
            check_of(
                "op 1 1 put a 01 1 2 done 1 1\nop 2 2 put a 02 3 4 done 2 2\norder a 1\nend 2 1\n",
                illegal("a", Verdict::Missing(2))?,
                "illegal a missing 2\n",
            ),
            check_of(
                "op 1 1 put a 01 1 2 done 1 1\nop 2 2 get a 3 - read 0 1\norder a 1 2\nend 2 1\n",
                illegal("a", Verdict::Stranger(2))?,
                "illegal a stranger 2\n",
            ),
            check_of(
                "op 1 1 put a 01 1 2 done 1 1\nop 2 2 put a 02 3 4 done 2 2\norder a 1 2 1\nend 2 1\n",
                illegal("a", Verdict::Twice(1))?,
                "illegal a twice 1\n",
            ),
            check_of(
                "op 1 1 put a 01 1 2 done 1 1\nop 2 2 get a 3 4 value 02 1 1\norder a 1 2\nend 2 1\n",
                illegal("a", Verdict::Wrong(2))?,
                "illegal a wrong 2\n",
            ),
        ],
    )
}

#[test]
fn the_first_illegal_order_is_told(rt: HostRuntime) -> Result<(), Fail> {
    all_answer(
        &rt,
        rt.alloc(),
        &[
            check_of(
                "op 1 1 put a 01 1 2 done 1 1\nop 2 2 put b 02 3 4 done 1 2\norder a 1\norder b\nend 2 2\n",
                illegal("b", Verdict::Missing(2))?,
                "illegal b missing 2\n",
            ),
            check_of(
                "op 1 1 put b 01 1 2 done 1 1\nop 2 2 put a 02 3 4 done 1 2\norder a\norder b\nend 2 2\n",
                illegal("a", Verdict::Missing(2))?,
                "illegal a missing 2\n",
            ),
        ],
    )
}

#[test]
fn other_words_are_refused_and_read_nothing(rt: HostRuntime) -> Result<(), Fail> {
    for words in [
        ["fly"].as_slice(),
        &[],
        &["replay", "replay"],
        &["--help"],
        &["replay "],
        &["check", "check"],
        &["replay", "check"],
        &["Check"],
        &["make"],
        &["make", "1"],
        &["make", "01", "5"],
        &["make", "1", "10001"],
        &["make", "18446744073709551616", "1"],
        &["make", "1", "5", "5"],
        &["replay", "1", "5"],
    ] {
        let mut row = call_of(words, PUT_THEN_GET, Status::BadWords, "bad words\n");
        row.failing_read = 1;
        let (status, written) = row.answer(rt.alloc())?;
        assert_eq!(rt; status, row.status, "{words:?}");
        assert_eq!(rt; written.as_str(), row.written);
    }
    Ok(())
}

#[test]
fn servers_tell_their_arrivals(rt: HostRuntime) -> Result<(), Fail> {
    let words = &["cloud", "7100", "--arrivals=2"];
    let mut unheard = call_of(words, "", Status::NetFault, "net fault\n");
    unheard.failing_call = 1;
    let mut cut_off = call_of(words, "", Status::NetFault, "net fault\n");
    cut_off.failing_call = 3;
    let served = call_of(words, "", Status::Done, "arrivals 2\n");
    all_answer(&rt, rt.alloc(), &[served, unheard, cut_off])
}

#[test]
fn made_schedules_are_summed_up_and_nothing_is_read(rt: HostRuntime) -> Result<(), Fail> {
    let line = "made 10 steps 14 ops 2 finished 0 keys 1 legal 1\n";
    let mut made = call_of(&["make", "1", "10"], PUT_THEN_GET, Status::Done, line);
    made.failing_read = 1;
    let mut failing_write = call_of(&["make", "1", "0"], "", Status::WriteFault, "");
    failing_write.failing_write = 1;
    all_answer(&rt, rt.alloc(), &[made, failing_write])
}

#[test]
fn statuses_have_their_codes(rt: HostRuntime) -> Result<(), Fail> {
    let fault = TextFault {
        line: 1,
        cause: Cause::NoHeader,
    };
    for (status, code) in [
        (Status::Done, 0),
        (Status::BadInput(fault), 1),
        (Status::BadWords, 2),
        (Status::NotYet { have: 0, need: 1 }, 3),
        (Status::ReadFault, 4),
        (Status::WriteFault, 5),
        (Status::NetFault, 6),
        (Status::NoMemory, 7),
        (Status::TooLong, 8),
        (illegal("a", Verdict::Wrong(1))?, 9),
        (Status::Exhausted(Stamp::zero()), 10),
        (Status::TooLarge(1_048_577), 11),
        (Status::SessionsFull, 12),
    ] {
        assert_eq!(rt; status.code(), code);
    }
    Ok(())
}
