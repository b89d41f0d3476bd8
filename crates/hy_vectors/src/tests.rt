//! The text is the one that every store of this make agrees on.

use super::*;
use std::process::Abort;
use std::test::Fail;

const TEXT: &str = "\
sha256 - e3b0c44298fc1c149afbf4c8996fb92427ae41e4649b934ca495991b7852b855
sha256 616263 ba7816bf8f01cfea414140de5dae2223b00361a396177a9cb410ff61f20015ad
times 02 80 1d
inverse 02 8e
times 02 8e 01
split 0102 2 4 01 02 07 04
rebuild 2 2 2:07 3:04 0102
name a 1 1 /o/a/0000000100000001
tomb 1 1 01000000000100000001
frame join 0000000101
frame read 1 1 a 0000000b0200000001000000010161
";

#[test]
fn values_are_those_of_the_formats(rt: HostRuntime) -> Result<(), Fail> {
    let text = vectors(rt.alloc())?;
    assert!(rt; text.bytes() == TEXT.as_bytes());
    Ok(())
}
