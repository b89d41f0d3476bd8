//! The program: the words of its command line, its standard input and output, the sockets of the loopback, and its exit status.
#![tactic(auto)]

use hy_base::{NoMemory, ReadSource, WriteSink};
use hy_tcp::TcpNet;
use hy_top::Status;
use std::process::ExitCode;
use std::rt::Env;
use std::{env, io};

#[cfg(test)]
mod tests;

fn main(rt: HostRuntime) -> ExitCode {
    let mut input = ReadSource::new(rt.stdin());
    let mut output = WriteSink::new(rt.stdout());
    let status = match (words_of(&rt), TcpNet::new(&rt, rt.alloc())) {
        (Ok(words), Ok(mut net)) => {
            hy_top::run(rt.alloc(), &words, &mut input, &mut output, &mut net)
        }
        _ => Status::NoMemory,
    };
    ExitCode::from(status.code())
}

/// The words after the program's name; none where one of them is no text.
fn words_of<R: Env + AllocGlobal>(rt: &R) -> Result<Vec<String>, NoMemory> {
    match env::args(rt) {
        Ok(words) => Ok(words.skip(1).collect(rt.alloc())?),
        Err(error) if error.kind() == io::ErrorKind::OutOfMemory => Err(NoMemory),
        Err(_) => Ok(Vec::new(rt.alloc())),
    }
}
