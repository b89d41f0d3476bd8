//! The top call: the words of the command line, an input, an output and a net, and a status.
//!
//!     let status = run(alloc, &words, &mut input, &mut output, &mut net);
//!
//! Definitions: `specs/Answer.antt`, a table: for each status when it comes and what was written; `Replay.antt`,
//! `Check.antt`, `Keep.antt`, `Make.antt`, `Vectors.antt`, `Serve.antt`, `Operate.antt` say what the commands do.
//!
//! Proved (`top.rt`, `run`: `answers`): with status 0 of `replay` the input is the text of a schedule, read to
//! its end, and what was written is the text of the report of its trace, which is linearizable where no two
//! different strings that were hashed in the run share a hash; each copy that it lists lies in at least k honest
//! clouds where the store bears as many faulty clouds as are Byzantine. `check` answers 0 exactly for reports
//! that are linearizable, else 9 with the first illegal order and its violation. The servers and operations play
//! their roles over a net that tells, and answer as these did. A status but that of want of memory which tells no
//! failed read or write says that none failed. Words that ask for nothing of the input, or of the net, leave it
//! untouched (`unread`, `untouched`).
#![tactic(auto)]

mod input;
mod keep;
mod line;
mod make_job;
mod reply;
mod server_job;
mod status;
mod store_job;
mod text_job;
mod top;

pub use status::Status;
pub use top::run;

#[cfg(test)]
mod tests;
