//! The words of the command line: what they ask for, and where they ask for nothing.

use super::*;
use hy_record::Key;
use std::alloc::Global;
use std::process::Abort;
use std::test::Fail;

/// The words of a line.
fn words(alloc: Global, line: &str) -> Result<Vec<String>, Fail> {
    let mut words = Vec::new(alloc);
    for word in line.split(' ') {
        words.push(String::from_str(alloc, word)?)?;
    }
    Ok(words)
}

/// A cloud's server.
fn cloud(port: u16, arrivals: u32) -> Command {
    Command::Cloud { port, arrivals }
}

/// A command on the key `a` of a store of this shape, at these ports.
fn on_store(
    command: StoreCommand,
    (f, k): (u8, u8),
    (meta, clouds): (u16, u16),
    arrivals: u32,
) -> Result<Command, Fail> {
    let key = Key::read(b"a").ok().ok_or("a key")?;
    Ok(Command::OnStore(
        command,
        Request {
            f,
            k,
            meta,
            clouds,
            key,
            arrivals,
        },
    ))
}

#[test]
fn words_of_the_table_ask_for_their_commands(rt: HostRuntime) -> Result<(), Fail> {
    let alloc = rt.alloc();
    for (line, command) in [
        ("replay", Command::OnText(TextCommand::Replay)),
        ("check", Command::OnText(TextCommand::Check)),
        ("vectors", Command::Vectors),
        ("make 0 0", Command::Make { seed: 0, events: 0 }),
        (
            "make 18446744073709551615 10000",
            Command::Make {
                seed: MAX_SEED,
                events: 10_000,
            },
        ),
        (
            "meta 7000",
            Command::Meta {
                port: 7_000,
                arrivals: 1_000_000,
            },
        ),
        ("cloud 65535", cloud(65_535, 1_000_000)),
        ("cloud --arrivals 1 1", cloud(1, 1)),
        ("cloud --arrivals=9 7100", cloud(7_100, 9)),
        (
            "cloud 7100 --arrivals 4294967295",
            cloud(7_100, 4_294_967_295),
        ),
    ] {
        assert!(rt; read_command(&words(alloc, line)?) == Ok(command), "{line}");
    }
    Ok(())
}

#[test]
fn words_on_a_store_name_it(rt: HostRuntime) -> Result<(), Fail> {
    let alloc = rt.alloc();
    let (put, get) = (StoreCommand::Put, StoreCommand::Get);
    let (delete, collect) = (StoreCommand::Delete, StoreCommand::Collect);
    for (line, command) in [
        (
            "put 0 1 7000 7100 a",
            on_store(put, (0, 1), (7_000, 7_100), 2_000)?,
        ),
        (
            "get 3 4 1 65520 a --arrivals 7",
            on_store(get, (3, 4), (1, 65_520), 7)?,
        ),
        (
            "delete 1 --arrivals=1 2 65535 1 a",
            on_store(delete, (1, 2), (65_535, 1), 1)?,
        ),
        (
            "collect 1 2 7000 7100 a",
            on_store(collect, (1, 2), (7_000, 7_100), 20_000)?,
        ),
    ] {
        assert!(rt; read_command(&words(alloc, line)?) == Ok(command), "{line}");
    }
    for line in ["get 0 1 7000 7100 _a", "collect 0 1 7000 7100 _a"] {
        assert!(rt; read_command(&words(alloc, line)?).is_ok(), "{line}");
    }
    for line in [
        "put",
        "put 4 1 7000 7100 a",
        "put 0 0 7000 7100 a",
        "put 0 5 7000 7100 a",
        "put 0 1 0 7100 a",
        "put 0 1 65536 7100 a",
        "put 0 1 7000 0 a",
        "put 0 1 7000 65521 a",
        "put 0 1 7000 7100",
        "put 0 1 7000 7100 a b",
        "put 0 1 7000 7100 -a",
        "put 0 1 7000 7100 a/b",
        "put 0 1 7000 7100 a --arrivals 0",
        "put 0 1 7000 7100 --arrivals 5 -a",
        "get 0 1 7000 7100 --arrivals=5 --arrivals",
        "put 0 1 7000 7100 _a",
        "delete 0 1 7000 7100 _a",
    ] {
        assert!(rt; read_command(&words(alloc, line)?).is_err(), "{line}");
    }
    Ok(())
}

#[test]
fn words_outside_the_table_ask_for_nothing(rt: HostRuntime) -> Result<(), Fail> {
    let alloc = rt.alloc();
    for line in [
        "",
        "forget",
        "replay now",
        "vectors 1",
        "make",
        "make 1",
        "make 01 1",
        "make 1 10001",
        "make 18446744073709551616 1",
        "make 1 1 1",
        "make 1 1 --arrivals 1",
        "cloud",
        "cloud 0",
        "cloud 65536",
        "cloud 07100",
        "cloud 7100 7101",
        "cloud 7100 --arrivals",
        "cloud 7100 --arrivals=",
        "cloud 7100 --arrivals 0",
        "cloud 7100 --arrivals 4294967296",
        "cloud 7100 --arrivals 1 --arrivals 1",
        "cloud 7100 --arrivals=1 --arrivals=1",
        "cloud 7100 --patience 1",
    ] {
        assert!(rt; read_command(&words(alloc, line)?).is_err(), "{line}");
    }
    Ok(())
}
