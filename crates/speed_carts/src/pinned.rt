//! The SHA-256 of each cartridge, as `examples/speed/SHA256` has it.

use crate::{mode7_cartridge, sieve_cartridge, tune_cartridge};
use sha2::{Digest, Sha256};
use std::alloc::AllocError;

#[test]
fn each_cartridge_has_its_sum(rt: HostRuntime) -> Result<(), AllocError> {
    let sums = [
        (
            sieve_cartridge(rt.alloc())?,
            "f5b886d70b61f76ad68718ff97fd5e2118966d09f68d58132b762fba81e1ab78",
        ),
        (
            mode7_cartridge(rt.alloc())?,
            "c6b0d1dcd2c95607646ce2280a6c362b53b52360bd7c603482b3124a9a843ea0",
        ),
        (
            tune_cartridge(rt.alloc())?,
            "2e8c56e200f7d3b341b48e77e9797eadcefb9e6a4cdf6515bb12d1e9b59dc91f",
        ),
    ];
    for (image, sum) in &sums {
        let made = hex::encode(rt.alloc(), Sha256::digest(image.as_slice()))?;
        assert_eq!(rt; made.as_str(), *sum);
    }
    Ok(())
}
