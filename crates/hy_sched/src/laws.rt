//! What holds of every schedule.

ghost use Rattle.std.specs.Prelude.{◌≡◌};
ghost use Rattle.hy_sched.specs.Ranges.{IsSchedule};
ghost use Rattle.hy_sched.specs.Reading.{schedule_of};
ghost use Rattle.hy_sched.specs.Text.{schedule_text};
ghost use Rattle.hy_sched.specs.declared.schedule.Schedule.{Schedule};

/// What is read of the text of a schedule within the limits is that schedule.
pub fn schedules_are_read_back()
    ensures { (schedule : Schedule) → IsSchedule schedule →
        schedule_of (schedule_text schedule) ≡ Ok schedule }
{}
