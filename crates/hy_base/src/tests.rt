mod ends;
mod net;

use super::*;
use std::test::Fail;

#[test]
fn a_blob_gives_its_bytes_back(rt: HostRuntime) -> Result<(), Fail> {
    let blob = Blob::copy_of(rt.alloc(), b"value")?;
    assert_eq!(rt; blob.bytes(), b"value".as_slice());
    let bytes = blob.into_bytes();
    assert_eq!(rt; bytes.as_slice(), b"value".as_slice());
    assert!(rt; Blob::of(bytes) == Blob::copy_of(rt.alloc(), b"value")?);
    Ok(())
}

#[test]
fn limits_are_those_of_the_documents(rt: HostRuntime) {
    assert_eq!(rt; (MAX_F, MAX_K, MAX_N, MAX_CLOUDS), (3, 4, 10, 16));
    assert_eq!(rt;
        (MAX_VALUE, MAX_TEXT_VALUE, MAX_KEY),
        (1_048_576, 4_096, 64)
    );
    assert_eq!(rt;
        (MAX_INPUT, MAX_EVENTS, MAX_SESSIONS),
        (16_777_216, 16_384, 4_096)
    );
    assert_eq!(rt;
        (MAX_SN, SN_END, MAX_RECORD),
        (4_294_967_294, 4_294_967_295, 338)
    );
    assert_eq!(rt; (MAX_COUNT, MAX_LINE), (4_294_967_295, 4_294_967_295));
}

#[test]
fn a_store_has_its_clouds_and_its_quorum(rt: HostRuntime) {
    for (f, k, clouds, quorum, fragment) in [
        (0, 1, 1, 1, 1_048_576),
        (1, 2, 4, 3, 524_288),
        (2, 3, 7, 5, 349_526),
        (3, 4, 10, 7, 262_144),
    ] {
        assert_eq!(rt; (cloud_count(f, k), quorum_size(f, k)), (clouds, quorum));
        assert_eq!(rt; fragment_size(1_048_576, k), fragment);
    }
    assert_eq!(rt; fragment_size(0, 4), 0);
}

#[test]
fn numbers_keep_their_order(rt: HostRuntime) -> Result<(), Fail> {
    let numbers = Numbers::of(vec![in rt.alloc(); 3, 1, 2]?);
    assert_eq!(rt; numbers.items(), [3, 1, 2].as_slice());
    assert_eq!(rt; numbers.into_items().as_slice(), [3, 1, 2].as_slice());
    Ok(())
}
