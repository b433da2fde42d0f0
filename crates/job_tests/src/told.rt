//! How answers are compared, and bytes to read.
// Two crates of tests have these few lines each: a library for them would make public calls of
// them, with contracts.
use fields::Refusal;
use std::alloc::AllocError;

/// The number and the byte place of a refusal; none where the bytes are read.
pub(crate) type Told = Option<(u8, usize)>;

pub(crate) fn told(refusal: Refusal) -> (u8, usize) {
    (refusal.number, refusal.place)
}

/// The layout of two stages. Their sets begin at bytes 6 and 10.
pub(crate) fn two_stages(bottom: u32, top: u32) -> [u8; 14] {
    let mut bytes = *b"CFL\0\x01\x02\0\0\0\0\0\0\0\0";
    bytes[6..10].copy_from_slice(&bottom.to_be_bytes());
    bytes[10..].copy_from_slice(&top.to_be_bytes());
    bytes
}

/// Adds so many times these bytes.
pub(crate) fn add(bytes: &mut Vec<u8>, times: u16, part: &[u8]) -> Result<(), AllocError> {
    for _ in 0..times {
        bytes.extend_from_slice(part)?;
    }
    Ok(())
}

pub(crate) fn put(bytes: &mut [u8], at: usize, byte: u8) {
    if at < bytes.len() {
        bytes[at] = byte;
    }
}

/// Adds 65,536 bytes of noise: the high bytes of x -> 1,664,525 x + 1,013,904,223 mod 2^32, from
/// x = 1. The first is 1,015,568,748 div 2^24 = 60.
pub(crate) fn add_noise(bytes: &mut Vec<u8>) -> Result<(), AllocError> {
    let mut x = 1u32;
    for _ in 0..65536 {
        x = x.wrapping_mul(1664525).wrapping_add(1013904223);
        let [high, _, _, _] = x.to_be_bytes();
        bytes.push(high)?;
    }
    Ok(())
}
