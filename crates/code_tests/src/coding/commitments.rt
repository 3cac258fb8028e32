//! Commitments that are given without chunks.

use super::*;

#[test]
fn a_commitment_is_the_root_of_the_encoding(rt: HostRuntime) -> Result<(), Fail> {
    let cases = [
        (config(1, 1), [].as_slice()),
        (config(2, 2), b"some payload"),
        (config(1, 7), b"one original"),
        (config(34, 66), b"more shards than bytes"),
    ];
    for (config, input) in cases {
        let coded = encoded::<Sha256, HostRuntime>(&rt, rt.alloc(), config, input)?;
        let root = Rs::commitment(&rt, rt.alloc(), &config, input, &Sequential)?;
        assert!(rt; root == coded.root);
    }
    Ok(())
}

#[test]
fn there_is_no_commitment_of_too_many_shards(rt: HostRuntime) {
    for (config, total) in [(config(65535, 1), 65536), (config(65535, 65535), 131070)] {
        let answer = Rs::commitment(&rt, rt.alloc(), &config, b"data", &Sequential);
        assert_eq!(rt;
            answer.err(),
            Some(ReedSolomonError::TooManyTotalShards(total))
        );
    }
}
