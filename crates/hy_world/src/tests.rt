use super::*;
use hy_order::write_report;
use hy_sched::read_schedule;
use std::alloc::Global;
use std::process::Abort;
use std::test::Fail;

/// Replays the schedule of the text, and compares the text of its report.
fn reports(
    rt: &impl Abort,
    alloc: Global,
    name: &str,
    schedule: &str,
    report: &str,
) -> Result<(), Fail> {
    match read_schedule(alloc, schedule.as_bytes()) {
        Ok(schedule) => {
            let found = replay(alloc, &schedule)?;
            let text = write_report(alloc, &found)?;
            assert!(rt; text.bytes() == report.as_bytes(), "report of {name}");
        }
        Err(_fault) => panic!(rt; "{name} is no schedule"),
    }
    Ok(())
}

#[test]
fn worked_schedules_are_reported(rt: HostRuntime) -> Result<(), Fail> {
    let alloc = rt.alloc();
    let rows = [
        (
            "a lying body",
            "hybris 1 f 1 k 1 liars 0\nopen\ninvoke 1 put a 01\ngive 1\ngive 2\ngive 4\ngive 5\nlie 0 1 1 a 1 1 stored\ngive 6\ngive 7\ninvoke 1 get a\ngive 8\ngive 9\nlie 0 1 2 a 1 1 body 00\ngive 11\ngive 12\n",
            "op 1 1 put a 01 2 9 done 1 1\nop 2 1 get a 10 15 value 01 1 1\norder a 1 2\nheld a 1 1 1\nend 2 1\n",
        ),
        (
            "a collection under a reader",
            "hybris 1 f 0 k 1 liars -\nopen\nopen\ndo 1 put a 01\ninvoke 2 get a\ngive 7\ngive 8\ndo 1 put a 02\ndo 1 collect a\ngive 9\ngive 22\ngive 23\ngive 25\ngive 26\ngive 27\ngive 28\ngive 29\n",
            "op 1 1 put a 01 3 9 done 1 1\nop 2 2 get a 10 34 value 02 2 1\nop 3 1 put a 02 13 19 done 2 1\nop 4 1 collect a 20 26 collected 1\norder a 1 3 2\nheld a 2 1 0\nend 4 1\n",
        ),
        (
            "an update after its client stopped",
            "hybris 1 f 0 k 1 liars -\nopen\nopen\ninvoke 1 put a 01\ngive 1\ngive 2\ngive 3\ngive 4\nstop 1\ngive 5\ndo 2 get a\n",
            "op 1 1 put a 01 3 - update 0 1\nop 2 2 get a 10 14 value 01 1 1\norder a 1 2\nheld a 1 1 0\nend 2 1\n",
        ),
        (
            "a coded value with padding",
            "hybris 1 f 1 k 2 liars 0\nopen\ndo 1 put a 010203\nlie 0 1 1 a 1 1 stored\ngive 8\ngive 9\ndo 1 get a\nlie 0 1 2 a 1 1 missing\ngive 15\ngive 16\n",
            "op 1 1 put a 010203 2 12 done 1 1\nop 2 1 get a 13 21 value 010203 1 1\norder a 1 2\nheld a 1 1 1,2\nend 2 1\n",
        ),
        (
            "a client that is busy",
            "hybris 1 f 0 k 1 liars -\nopen\ninvoke 1 put a 01\ndo 1 get a\nstop 1\n",
            "op 1 1 put a 01 2 - read 0 1\norder a\nend 1 1\n",
        ),
    ];
    for (name, schedule, report) in rows {
        reports(&rt, alloc, name, schedule, report)?;
    }
    Ok(())
}
