//! The SHA-256 of each cartridge, as `examples/profiles/SHA256` has it.

use crate::{IDIOMS, cartridge};
use sha2::{Digest, Sha256};
use std::alloc::AllocError;

/// The sums, in the order of `IDIOMS`.
static SUMS: [&str; 11] = [
    "9ad456252914695bb25ca605e07063dcb44f3f614f315b8d83cb187c66bc9f79",
    "a5fdef552cbf013f6be8142b1aa5738ae6a6301f235d89987094eb88be3e6cf3",
    "4204e1600f2d2fca9469a23df5982c92f715bcde4d0e5063fcae71ad0db5a122",
    "15477d7411963cd390fd9a959529a01044c8c1152e65d828211b8f62f5ab1f89",
    "c61f064144d193dcf5b8a278fba1e133383ab9488cdd33273ce75dfff8e6bcf8",
    "30b1f14eee5e2bf3df2d148362e1d6f72e110e5b889a842dc2612eae42bcffca",
    "247a802cd9ca5649831f33bac585af9f00a44f97f3a2d15c9b50c806c7390628",
    "b16212310cb7f8ad1b9fe99e59b9ff74c17fb76007388958ee49f2a356ea3a11",
    "9f5f17d67371e92ce8c204e507dc745329f3298804464ba2d5ced172209d4950",
    "1a698e0edab82fea33d91262da55c93723b08e5afc23be9bc0465155e03d867d",
    "0f9d3e321662628920b15615905a8e8874c602b7906d0f3579209a62863e56b9",
];

#[test]
fn each_cartridge_has_its_sum(rt: HostRuntime) -> Result<(), AllocError> {
    for (idiom, sum) in IDIOMS.iter().zip(SUMS.iter()) {
        let image = cartridge(rt.alloc(), *idiom)?;
        let made = hex::encode(rt.alloc(), Sha256::digest(image.as_slice()))?;
        assert_eq!(rt; made.as_str(), *sum);
    }
    Ok(())
}
