//! Worked schedules, each with its report.

use super::{all_answer, bad_input, replay_of};
use crate::Status;
use hy_base::{Blob, Cause};
use hy_meta::PlainService;
use hy_order::write_report;
use hy_sched::read_schedule;
use hy_world::replay_over;
use std::alloc::Global;
use std::test::Fail;

/// The name of a schedule, its text, and its report.
const WORKED: [(&str, &str, &str); 25] = [
    (
        "put_then_get",
        "hybris 1 f 0 k 1 liars -\nopen\ndo 1 put a 616263\ndo 1 get a\n",
        "op 1 1 put a 616263 2 8 done 1 1\nop 2 1 get a 9 13 value 616263 1 1\norder a 1 2\nheld a 1 1 0\nend 2 1\n",
    ),
    ("empty_schedule", "hybris 1 f 0 k 1 liars -\n", "end 0 0\n"),
    (
        "put_step_by_step",
        "hybris 1 f 1 k 1 liars -\nopen\ninvoke 1 put a 01\ngive 1\ngive 2\ngive 3\ngive 4\ngive 5\ngive 6\ngive 7\ngive 8\n",
        "op 1 1 put a 01 2 10 done 1 1\norder a 1\nheld a 1 1 0,1\nend 1 1\n",
    ),
    (
        "repeated_update_is_kept",
        "hybris 1 f 1 k 1 liars -\nopen\ninvoke 1 put a 01\ngive 1\ngive 2\ngive 3\ngive 4\ngive 5\ngive 6\ngive 7\ngive 7\ngive 8\ngive 9\n",
        "op 1 1 put a 01 2 11 done 1 1\norder a 1\nheld a 1 1 0,1\nend 1 1\n",
    ),
    (
        "repeated_ack_counts_once",
        "hybris 1 f 1 k 1 liars -\nopen\ninvoke 1 put a 01\ngive 1\ngive 2\ngive 3\ngive 4\ngive 5\ngive 5\n",
        "op 1 1 put a 01 2 - store 1 2\norder a\nend 1 1\n",
    ),
    (
        "overwritten_put_orders_first",
        "hybris 1 f 0 k 1 liars -\nopen\nopen\ninvoke 1 put a 01\ninvoke 2 put a 02\ngive 1\ngive 2\ngive 3\ngive 4\ngive 5\ngive 6\ngive 7\ngive 8\ngive 10\ngive 9\ngive 11\ngive 12\ndo 1 get a\n",
        "op 1 1 put a 01 3 16 done 1 1\nop 2 2 put a 02 4 15 done 1 2\nop 3 1 get a 17 21 value 02 1 2\norder a 1 2 3\nheld a 1 2 0\nend 3 1\n",
    ),
    (
        "tick_reaches_spare_clouds",
        "hybris 1 f 1 k 1 liars -\nopen\ninvoke 1 put a 01\ngive 1\ngive 2\ngive 3\ngive 5\ntick 1\ngive 7\ngive 8\ngive 9\ngive 10\n",
        "op 1 1 put a 01 2 11 done 1 1\norder a 1\nheld a 1 1 0,2\nend 1 1\n",
    ),
    (
        "lying_body_is_rejected",
        "hybris 1 f 1 k 1 liars 0\nopen\ninvoke 1 put a 01\ngive 1\ngive 2\ngive 4\ngive 5\nlie 0 1 1 a 1 1 stored\ngive 6\ngive 7\ninvoke 1 get a\ngive 8\ngive 9\nlie 0 1 2 a 1 1 body 00\ngive 11\ngive 12\n",
        "op 1 1 put a 01 2 9 done 1 1\nop 2 1 get a 10 15 value 01 1 1\norder a 1 2\nheld a 1 1 1\nend 2 1\n",
    ),
    (
        "stale_body_is_rejected",
        "hybris 1 f 1 k 1 liars 0\nopen\ndo 1 put a 01\nlie 0 1 1 a 1 1 stored\ngive 6\ngive 7\ndo 1 put a 02\nlie 0 1 2 a 2 1 stored\ngive 13\ngive 14\ndo 1 get a\nlie 0 1 3 a 2 1 body 01\ngive 18\ngive 19\n",
        "op 1 1 put a 01 2 10 done 1 1\nop 2 1 put a 02 11 19 done 2 1\nop 3 1 get a 20 26 value 02 2 1\norder a 1 2 3\nheld a 2 1 1\nend 3 1\n",
    ),
    (
        "collected_under_reader",
        "hybris 1 f 0 k 1 liars -\nopen\nopen\ndo 1 put a 01\ninvoke 2 get a\ngive 7\ngive 8\ndo 1 put a 02\ndo 1 collect a\ngive 9\ngive 22\ngive 23\ngive 25\ngive 26\ngive 27\ngive 28\ngive 29\n",
        "op 1 1 put a 01 3 9 done 1 1\nop 2 2 get a 10 34 value 02 2 1\nop 3 1 put a 02 13 19 done 2 1\nop 4 1 collect a 20 26 collected 1\norder a 1 3 2\nheld a 2 1 0\nend 4 1\n",
    ),
    (
        "update_after_client_stopped",
        "hybris 1 f 0 k 1 liars -\nopen\nopen\ninvoke 1 put a 01\ngive 1\ngive 2\ngive 3\ngive 4\nstop 1\ngive 5\ndo 2 get a\n",
        "op 1 1 put a 01 3 - update 0 1\nop 2 2 get a 10 14 value 01 1 1\norder a 1 2\nheld a 1 1 0\nend 2 1\n",
    ),
    (
        "empty_value_coded",
        "hybris 1 f 1 k 2 liars -\nopen\ndo 1 put a -\ndo 1 get a\n",
        "op 1 1 put a - 2 12 done 1 1\nop 2 1 get a 13 19 value - 1 1\norder a 1 2\nheld a 1 1 0,1,2\nend 2 1\n",
    ),
    (
        "coded_put_with_padding",
        "hybris 1 f 1 k 2 liars 0\nopen\ndo 1 put a 010203\nlie 0 1 1 a 1 1 stored\ngive 8\ngive 9\ndo 1 get a\nlie 0 1 2 a 1 1 missing\ngive 15\ngive 16\n",
        "op 1 1 put a 010203 2 12 done 1 1\nop 2 1 get a 13 21 value 010203 1 1\norder a 1 2\nheld a 1 1 1,2\nend 2 1\n",
    ),
    (
        "get_of_absent_key",
        "hybris 1 f 0 k 1 liars -\nopen\ndo 1 get a\n",
        "op 1 1 get a 2 4 none 0 0\norder a 1\nend 1 1\n",
    ),
    (
        "delete_then_get",
        "hybris 1 f 0 k 1 liars -\nopen\ndo 1 put a 01\ndo 1 delete a\ndo 1 get a\n",
        "op 1 1 put a 01 2 8 done 1 1\nop 2 1 delete a 9 13 done 2 1\nop 3 1 get a 14 16 none 2 1\norder a 1 2 3\nend 3 1\n",
    ),
    (
        "busy_client_ignores_do",
        "hybris 1 f 0 k 1 liars -\nopen\ninvoke 1 put a 01\ndo 1 get a\nstop 1\n",
        "op 1 1 put a 01 2 - read 0 1\norder a\nend 1 1\n",
    ),
    (
        "largest_shape",
        "hybris 1 f 3 k 4 liars -\nopen\ndo 1 put a 01020304\n",
        "op 1 1 put a 01020304 2 20 done 1 1\norder a 1\nheld a 1 1 0,1,2,3,4,5,6\nend 1 1\n",
    ),
    (
        "true_body_from_liar",
        "hybris 1 f 1 k 1 liars 0\nopen\ninvoke 1 put a 01\ngive 1\ngive 2\ngive 4\ngive 5\nlie 0 1 1 a 1 1 stored\ngive 6\ngive 7\ninvoke 1 get a\ngive 8\ngive 9\nlie 0 1 2 a 1 1 body 01\ngive 11\ngive 12\n",
        "op 1 1 put a 01 2 9 done 1 1\nop 2 1 get a 10 13 value 01 1 1\norder a 1 2\nheld a 1 1 1\nend 2 1\n",
    ),
    (
        "more_liars_than_faults",
        "hybris 1 f 1 k 1 liars 0,1,2\nopen\ninvoke 1 put a 01\ngive 1\ngive 2\nlie 0 1 1 a 1 1 stored\nlie 1 1 1 a 1 1 stored\ngive 5\ngive 6\ndo 1 get a\n",
        "op 1 1 put a 01 2 8 done 1 1\nop 2 1 get a 9 - fetch 0 1\norder a 1\nheld a 1 1 -\nend 2 1\n",
    ),
    (
        "swap_sequence",
        "hybris 1 f 0 k 1 liars -\nopen\nopen\ndo 1 swap _a 0 0 01\ndo 2 swap _a 0 0 02\ndo 2 swap _a 1 1 03\ndo 1 get _a\n",
        "op 1 1 swap _a 0 0 01 3 9 swapped 1 1\nop 2 2 swap _a 0 0 02 10 12 changed 1 1\nop 3 2 swap _a 1 1 03 13 19 swapped 2 2\nop 4 1 get _a 20 24 value 03 2 2\norder _a 1 2 3 4\nheld _a 2 2 0\nend 4 1\n",
    ),
    (
        "repeated_swap_acts_once",
        "hybris 1 f 0 k 1 liars -\nopen\nopen\ninvoke 1 swap _a 0 0 01\ngive 1\ngive 2\ngive 3\ngive 4\ngive 5\ndo 2 swap _a 1 1 02\ngive 5\ngive 13\n",
        "op 1 1 swap _a 0 0 01 3 17 swapped 1 1\nop 2 2 swap _a 1 1 02 9 15 swapped 2 2\norder _a 1 2\nheld _a 2 2 0\nend 2 1\n",
    ),
    (
        "competing_swaps",
        "hybris 1 f 0 k 1 liars -\nopen\nopen\ninvoke 1 swap _a 0 0 01\ninvoke 2 swap _a 0 0 02\ngive 1\ngive 2\ngive 3\ngive 4\ngive 5\ngive 6\ngive 7\ngive 8\ngive 9\ngive 10\ngive 11\ngive 12\n",
        "op 1 1 swap _a 0 0 01 3 15 swapped 1 1\nop 2 2 swap _a 0 0 02 4 16 changed 1 1\norder _a 1 2\nheld _a 1 1 0\nend 2 1\n",
    ),
    (
        "loser_swaps_again",
        "hybris 1 f 0 k 1 liars -\nopen\nopen\ninvoke 1 swap _a 0 0 01\ninvoke 2 swap _a 0 0 02\ngive 1\ngive 2\ngive 3\ngive 4\ngive 5\ngive 6\ngive 7\ngive 8\ngive 9\ngive 10\ngive 11\ngive 12\ndo 2 swap _a 1 1 03\ndo 1 get _a\n",
        "op 1 1 swap _a 0 0 01 3 15 swapped 1 1\nop 2 2 swap _a 0 0 02 4 16 changed 1 1\nop 3 2 swap _a 1 1 03 17 23 swapped 2 2\nop 4 1 get _a 24 28 value 03 2 2\norder _a 1 2 3 4\nheld _a 2 2 0\nend 4 1\n",
    ),
    (
        "swap_is_repeated_after_another_won",
        "hybris 1 f 0 k 1 liars -\nopen\nopen\ninvoke 1 swap _a 0 0 01\ngive 1\ngive 2\ngive 3\ngive 4\ngive 5\ndo 2 swap _a 1 1 02\ntick 1\ngive 13\ngive 14\ndo 1 get _a\n",
        "op 1 1 swap _a 0 0 01 3 18 swapped 1 1\nop 2 2 swap _a 1 1 02 9 15 swapped 2 2\nop 3 1 get _a 19 23 value 02 2 2\norder _a 1 2 3\nheld _a 2 2 0\nend 3 1\n",
    ),
    (
        "swaps_of_three_clients_with_a_liar_and_a_collection",
        "hybris 1 f 1 k 1 liars 0\nopen\nopen\nopen\ndo 1 swap _a 0 0 01\nlie 0 1 1 _a 1 1 stored\ngive 6\ngive 7\ninvoke 2 swap _a 1 1 02\ninvoke 3 swap _a 1 1 03\ngive 8\ngive 9\ngive 10\ngive 11\ngive 13\ngive 15\ngive 16\ngive 17\nlie 0 2 1 _a 2 2 stored\ntick 3\ngive 20\ngive 21\ngive 22\ngive 18\ndo 1 collect _a\ngive 24\ntick 3\ngive 39\ngive 40\ndo 2 get _a\ndo 1 swap _a 1 1 05\n",
        "op 1 1 swap _a 0 0 01 4 12 swapped 1 1\nop 2 2 swap _a 1 1 02 13 44 changed 2 3\nop 3 3 swap _a 1 1 03 14 47 swapped 2 3\nop 4 1 collect _a 29 43 collected 2\nop 5 2 get _a 48 52 value 03 2 3\nop 6 1 swap _a 1 1 05 53 55 changed 2 3\norder _a 1 3 2 5 6\nheld _a 2 3 1,2\nend 6 1\n",
    ),
];

/// Collections that race with two writers and a reader, in a coded store with a liar.
const RACE: &str = "\
    hybris 1 f 1 k 2 liars 2\nopen\nopen\nopen\ntick 2\ntick 2\ninvoke 2 put a 93fd\n\
    invoke 3 get a\ngive 1\ngive 2\ngive 3\ngive 5\ngive 6\ninvoke 1 get a\ngive 4\ngive 9\n\
    lie 2 2 1 a 1 2 stored\ninvoke 3 get a\ngive 10\ngive 12\ntick 1\ngive 11\ngive 13\n\
    give 8\ninvoke 3 get a\ndo 1 put a -\ngive 17\ngive 14\ngive 21\n\
    lie 2 1 2 a 1 1 stored\ngive 23\ngive 24\ntick 2\ninvoke 2 collect a\ngive 15\ngive 25\n\
    give 16\ninvoke 1 collect a\ngive 27\ngive 29\ngive 28\ngive 26\ngive 30\ngive 33\n\
    give 34\ngive 22\ngive 35\ngive 24\ngive 34\ngive 31\ngive 19\ngive 32\ngive 36\n\
    give 38\ngive 41\nlie 2 2 2 a 1 1 gone\ntick 1\ngive 18\ngive 44\ninvoke 3 get a\n\
    give 43\nlie 2 1 3 a 1 1 gone\ngive 6\ntick 3\ngive 42\ngive 39\ngive 48\ngive 46\n\
    give 40\ngive 52\nlie 2 1 3 a 1 1 gone\ngive 55\ngive 54\ngive 50\ngive 58\ngive 56\n\
    give 57\ngive 49\ngive 53\ngive 47\ngive 60\ngive 62\ngive 66\ntick 1\ntick 2\ntick 1\n\
    give 70\ngive 12\ngive 22\ngive 59\ngive 61\ngive 68\ngive 71\ngive 63\ngive 64\n\
    give 74\ntick 2\ngive 69\ngive 73\ninvoke 2 put a f30c\ngive 72\ngive 65\ngive 31\n\
    give 67\ngive 77\ngive 79\ndo 1 put a 1e043c\ngive 81\ngive 83\ndo 3 get a\ndo 3 get a\n";

/// The report of the race.
const ITS_REPORT: &str = "\
    op 1 2 put a 93fd 6 37 done 1 2\nop 2 3 get a 7 14 none 0 0\n\
    op 3 1 get a 13 19 none 0 0\nop 4 3 get a 17 22 none 0 0\n\
    op 5 3 get a 24 61 value 93fd 1 2\nop 6 1 put a - 25 42 done 1 1\n\
    op 7 2 collect a 40 105 collected 1\nop 8 1 collect a 44 111 collected 1\n\
    op 9 3 get a 66 121 value 93fd 1 2\nop 10 2 put a f30c 106 - read 0 1\n\
    op 11 1 put a 1e043c 113 - store 2 3\nop 12 3 get a 123 129 value 93fd 1 2\n\
    op 13 3 get a 130 136 value 93fd 1 2\norder a 2 3 4 6 1 5 9 12 13\nheld a 1 2 0,1\n\
    end 13 1\n";

/// The report of the schedule over the plain metadata service.
fn plain_report(alloc: Global, text: &str) -> Result<Blob, Fail> {
    let Ok(schedule) = read_schedule(alloc, text.as_bytes()) else {
        return Err("a schedule".into());
    };
    let report = replay_over(alloc, &schedule, PlainService::new(alloc)?)?;
    Ok(write_report(alloc, &report)?)
}

#[test]
fn worked_schedules_have_their_reports(rt: HostRuntime) -> Result<(), Fail> {
    for (name, schedule, report) in WORKED {
        assert_eq!(rt;
            plain_report(rt.alloc(), schedule)?.bytes(),
            report.as_bytes(),
            "{name}"
        );
        let (status, written) = replay_of(schedule, Status::Done, report).answer(rt.alloc())?;
        assert_eq!(rt; status, Status::Done, "{name}");
        assert_eq!(rt; written.as_str(), report, "{name}");
    }
    Ok(())
}

#[test]
fn keys_of_swaps_are_refused_to_puts(rt: HostRuntime) -> Result<(), Fail> {
    let put = "hybris 1 f 0 k 1 liars -\ndo 1 put _a 01\n";
    let swap = "hybris 1 f 0 k 1 liars -\ndo 1 swap a 0 0 01\n";
    let line = "bad input 2 BadKey\n";
    all_answer(
        &rt,
        rt.alloc(),
        &[
            replay_of(put, bad_input(2, Cause::BadKey), line),
            replay_of(swap, bad_input(2, Cause::BadKey), line),
        ],
    )
}

#[test]
fn collections_race_with_writers_and_a_reader(rt: HostRuntime) -> Result<(), Fail> {
    all_answer(
        &rt,
        rt.alloc(),
        &[replay_of(RACE, Status::Done, ITS_REPORT)],
    )
}
