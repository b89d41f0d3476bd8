//! What holds of the trace of every schedule, whatever is delivered, lost, repeated or forged.

ghost use Rattle.std.specs.Prelude.{◌≡◌, ◌≤◌, ◌+◌, ℕ, List, length, true, false, Some, None};
ghost use Rattle.std.specs.List.{AllByRecursion};
ghost use Rattle.hy_record.specs.Stamp.{Timestamp, stamp_lt};
ghost use Rattle.hy_base.specs.Shape.{IsShape};
ghost use Rattle.hy_record.specs.Record.{RecordValue, is_tombstone};
ghost use Rattle.hy_record.specs.Clouds.{clouds_of};
ghost use Rattle.hy_meta.specs.Service.{record_stamp, record_after};
ghost use Rattle.hy_record.specs.declared.turn.Cue.{Cue};
ghost use Rattle.hy_protocol.specs.declared.plan.GetPlan.{GetPlan};
ghost use Rattle.hy_protocol.specs.Read.{refresh_count};
ghost use Rattle.hy_order.specs.History.{IsHistory};
ghost use Rattle.hy_order.specs.declared.held.Held.{Held};
ghost use Rattle.hy_order.specs.Linearization.{RespectsRealTime, no_register, ReadsRegister, IsLinearization, IsReportLinearizable};
ghost use Rattle.hy_trace.specs.declared.step.Step.{Step};
ghost use Rattle.hy_trace.specs.Deeds.{Params, Start, served, inputs_of};
ghost use Rattle.hy_trace.specs.Messages.{IsSent};
ghost use Rattle.hy_trace.specs.Schedule.{trace_of};
ghost use Rattle.hy_trace.specs.History.{history_of};
ghost use Rattle.hy_trace.specs.Points.{applied_count};
ghost use Rattle.hy_trace.specs.Order.{marks_of, operations_in_order, operations_by_stamp, linearization_of};
ghost use Rattle.hy_trace.specs.Hashed.{IsCollisionFree, ArePutBytes};
ghost use Rattle.hy_trace.specs.Held.{held_of, HasLiars, holders_of};
ghost use Rattle.hy_trace.specs.Report.{report_of};
ghost use Rattle.hy_theorems.specs.Within.{IsWithin};
ghost use Rattle.hy_theorems.specs.Writing.{IsWriting};
ghost use Rattle.hy_theorems.specs.Deleting.{deletion};
ghost use Rattle.hy_theorems.specs.Retrieval.{IsRetrievable};
ghost use Rattle.hy_theorems.specs.Refreshing.{reads_sent_again};
ghost use Rattle.hy_theorems.specs.Starving.{IsGet, IsStarvedGet};

/// Two writes of a key with one timestamp are one.
pub fn stamps_of_writes_differ()
    ensures { (p : Params) (schedule : List Step) (c o b n : ℕ) (key : List ℕ) (stamp : Timestamp) →
        let t = trace_of p schedule in
        IsWriting p c o key stamp t → IsWriting p b n key stamp t → (c ≡ b) × (o ≡ n) }
{}

/// A deletion that was asked for is of a timestamp below that of the record, whatever clouds do.
pub fn deletions_are_superseded()
    ensures { (p : Params) (schedule : List Step) (client op cloud : ℕ) (key : List ℕ) (stamp : Timestamp) →
        let t = trace_of p schedule in
        IsSent p t (deletion client op cloud key stamp) → stamp_lt stamp (record_stamp (served t) key) ≡ true }
{}

/// The order of a key's operations, in which each stands at its point, is their order by timestamp: writes before the reads that found them,
/// and reads of one timestamp by their points.
pub fn orders_stand_by_stamp()
    ensures { (p : Params) (schedule : List Step) (key : List ℕ) →
        let t = trace_of p schedule in
        operations_in_order p t key ≡ operations_by_stamp p t key }
{}

/// The point of each listed operation is after its invocation and not after its return, whatever clouds do.
pub fn points_lie_within_operations()
    ensures { (p : Params) (schedule : List Step) (key : List ℕ) → AllByRecursion IsWithin (marks_of p (trace_of p schedule) key) }
{}

/// The order of a key's operations respects real time, whatever clouds do.
pub fn orders_respect_real_time()
    ensures { (p : Params) (schedule : List Step) (key : List ℕ) → RespectsRealTime (operations_in_order p (trace_of p schedule) key) }
{}

/// Where no two strings that were hashed collide, each get answers what the last write before it in the order left,
/// and each swap tells the timestamp of that write: it expected it, or replied it.
pub fn reads_find_the_last_write()
    ensures { (p : Params) (schedule : List Step) (key : List ℕ) →
        let t = trace_of p schedule in
        IsShape p.f p.k → IsCollisionFree p t → ArePutBytes t → ReadsRegister no_register (operations_in_order p t key) }
{}

/// The operations of a schedule are a history: numbered from 1, each with an end that its action can have.
pub fn operations_are_a_history()
    ensures { (p : Params) (schedule : List Step) → IsHistory (history_of p (trace_of p schedule)) }
{}

/// Where no two strings that were hashed collide, the order of each key is a linearization: it lists every finished operation once,
/// respects real time, and each get answers what the last write before it left.
pub fn orders_are_linearizations()
    ensures { (p : Params) (schedule : List Step) (key : List ℕ) →
        let t = trace_of p schedule in
        IsShape p.f p.k → IsCollisionFree p t → ArePutBytes t → IsLinearization (history_of p t) key (linearization_of p t key) }
{}

/// Where no two strings that were hashed collide, the report of every schedule is linearizable, with any number of Byzantine clouds.
pub fn reports_are_linearizable()
    ensures { (p : Params) (schedule : List Step) →
        let t = trace_of p schedule in
        IsShape p.f p.k → IsCollisionFree p t → ArePutBytes t → IsReportLinearizable (report_of p t) }
{}

/// A record is that of a delete, or lists a quorum of clouds, each of which is Byzantine or holds the value's fragment.
pub fn values_are_held()
    ensures { (p : Params) (schedule : List Step) (key : List ℕ) (r : RecordValue) →
        let t = trace_of p schedule in
        IsShape p.f p.k → record_after (served t) key ≡ Some r → IsRetrievable p t key r }
{}

/// With at most f Byzantine clouds, the current version of each key with a value is held, with valid bytes, by k honest clouds of its list,
/// whatever was collected.
pub fn current_versions_stay_retrievable()
    ensures { (p : Params) (schedule : List Step) (key : List ℕ) (r : RecordValue) →
        let t = trace_of p schedule in
        IsShape p.f p.k → HasLiars p p.f → record_after (served t) key ≡ Some r → is_tombstone r.kind ≡ false → p.k ≤ length (holders_of p t key r) }
{}

/// With at most f Byzantine clouds, what a report tells of a key's current version lists at least k clouds.
pub fn reported_copies_are_enough()
    ensures { (p : Params) (schedule : List Step) (key : List ℕ) (held : Held) →
        let t = trace_of p schedule in
        IsShape p.f p.k → HasLiars p p.f → held_of p t key ≡ Some held → p.k ≤ length (clouds_of held.clouds) }
{}

/// The refreshes of a get are the requests for the record that it sends again, those upon a timeout left out.
pub fn refreshes_are_reads_sent_again()
    ensures { (plan : GetPlan) (inputs : List Cue) → refresh_count inputs ≡ reads_sent_again plan inputs }
{}

/// A get refreshes at most as often as updates of its key were applied since it began, whatever clouds do.
pub fn refreshes_are_bounded_by_updates()
    ensures { (p : Params) (schedule : List Step) (client op : ℕ) (key : List ℕ) (start : Start) →
        let t = trace_of p schedule in
        IsGet client op key start t →
        refresh_count (inputs_of client op t) + applied_count (served start.before) key ≤ applied_count (served t) key }
{}

/// With at most f Byzantine clouds: where each honest cloud of its record's list has answered a pending get for the record, the record of the key is a later one.
pub fn starved_reads_are_superseded()
    ensures { (p : Params) (schedule : List Step) (client op : ℕ) (key : List ℕ) (r : RecordValue) →
        let t = trace_of p schedule in
        IsShape p.f p.k → HasLiars p p.f → IsStarvedGet p client op key r t → stamp_lt r.stamp (record_stamp (served t) key) ≡ true }
{}
