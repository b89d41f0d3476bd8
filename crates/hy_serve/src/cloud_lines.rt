//! The connections of a cloud's server, and the requests that come on them.

ghost use Rattle.std.specs.Prelude.{◌≡◌, ◌≢◌, IfOk};
ghost use Rattle.hy_cwire.specs.declared.fault.HttpFault.TheVariants as faults;
ghost use Rattle.hy_serve.specs.declared.cloud_lines.Reading.TheVariants as readings;
ghost use Rattle.hy_serve.specs.CloudStanding.{Reads, ReadsOn};

use hy_base::NoMemory;
use hy_cwire::{AskReader, HttpFault};
use hy_record::Wish;
use std::alloc::Global;

/// What the bytes of a connection come to.
#[derive(Debug, Drop)]
pub(crate) enum Reading {
    /// The request is not whole yet, or the connection does not count.
    Partial,
    Asks(Wish),
    Wrong(HttpFault),
}

/// The bytes of a connection go on, where it asks. Behind a whole request or a fault it counts no more.
pub(crate) fn read_on(
    line: &mut Option<AskReader>,
    alloc: Global,
    piece: &[u8],
) -> Result<Reading, NoMemory>
    ensures { IfOk result (ReadsOn line.old line.new piece.now) }
{
    let Some(reader) = line else {
        return Ok(Reading::Partial);
    };
    match read(reader, alloc, piece)? {
        Reading::Partial => Ok(Reading::Partial),
        Reading::Asks(wish) => {
            *line = None;
            Ok(Reading::Asks(wish))
        }
        Reading::Wrong(fault) => {
            *line = None;
            Ok(Reading::Wrong(fault))
        }
    }
}

/// Takes a piece of a request.
fn read(reader: &mut AskReader, alloc: Global, piece: &[u8]) -> Result<Reading, NoMemory>
    ensures { IfOk result (Reads reader.old reader.new piece.now) }
{
    match reader.feed(alloc, piece) {
        Ok(()) => match reader.next() {
            Ok(Some(wish)) => Ok(Reading::Asks(wish)),
            Ok(None) => Ok(Reading::Partial),
            Err(fault) => wrong(fault),
        },
        Err(fault) => wrong(fault),
    }
}

/// What is wrong with the request, unless it is that memory ran out.
fn wrong(fault: HttpFault) -> Result<Reading, NoMemory>
    ensures { IfOk result
        (λ reading. (reading ≡ readings.Wrong fault) × (fault ≢ faults.NoMemory)) }
{
    match fault {
        HttpFault::NoMemory => Err(NoMemory),
        fault => Ok(Reading::Wrong(fault)),
    }
}
