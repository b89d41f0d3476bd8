//! Lines that another program computed.

ghost use Rattle.std.specs.Prelude.{◌≤◌};
ghost use Rattle.hy_base.specs.declared.limits.TheConstants.{MAX_MADE};

use super::*;
use std::alloc::Global;
use std::process::Abort;
use std::test::Fail;

/// The schedule of seed 1 with so many events has this line.
fn has_line(rt: &impl Abort, alloc: Global, count: u32, line: &str) -> Result<(), Fail>
    requires { count ≤ MAX_MADE }
{
    let summary = summary_of(alloc, 1, count)?;
    assert_eq!(rt; summary_line(alloc, &summary)?.bytes(), line.as_bytes());
    Ok(())
}

#[test]
fn lines_are_those_of_another_program(rt: HostRuntime) -> Result<(), Fail> {
    let alloc = rt.alloc();
    has_line(
        &rt,
        alloc,
        0,
        "made 0 steps 4 ops 0 finished 0 keys 0 legal 0\n",
    )?;
    has_line(
        &rt,
        alloc,
        10,
        "made 10 steps 14 ops 2 finished 0 keys 1 legal 1\n",
    )?;
    has_line(
        &rt,
        alloc,
        100,
        "made 100 steps 104 ops 8 finished 6 keys 2 legal 2\n",
    )?;
    has_line(
        &rt,
        alloc,
        10_000,
        "made 10000 steps 10004 ops 89 finished 85 keys 2 legal 2\n",
    )
}
