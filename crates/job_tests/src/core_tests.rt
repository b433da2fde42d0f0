//! Cores: an image and a layout in a row, behind which nothing may follow.
use crate::told::{Told, told};
use job::read_core;
use std::process::Abort;

/// An image of one record at bytes 0 to 16, and a layout of two stages at 17 to 30.
const CORE: &[u8] = b"CFP\0\x01\0\x01\0\0\0\0\0\0\0\0\0\0CFL\0\x01\x02\0\x01\0\x04\0\0\0\x60";

/// The bytes are a core of one record and two stages, or are refused so.
fn answers(rt: &impl Abort, bytes: &[u8], expected: Result<(u16, usize), Told>) {
    let found = read_core(bytes)
        .map(|core| (core.image.count(), core.layout.stages()))
        .map_err(|fault| Some(told(fault.into())));
    assert_eq!(rt;
        (bytes.len(), found),
        (bytes.len(), expected),
        "length, and what is read"
    );
}

/// Whole; then with bytes behind the layout, a move list's head among them; then cut short in each
/// part.
#[test]
fn cores(rt: HostRuntime) {
    answers(&rt, CORE, Ok((1, 2)));
    let longer =
        *b"CFP\0\x01\0\x01\0\0\0\0\0\0\0\0\0\0CFL\0\x01\x02\0\x01\0\x04\0\0\0\x60CFM\0\x01\0\0";
    answers(&rt, &longer, Err(Some((24, 31))));
    answers(&rt, &longer[..32], Err(Some((24, 31))));
    answers(&rt, &longer[..30], Err(Some((14, 30))));
    answers(&rt, &longer[..20], Err(Some((10, 20))));
    answers(&rt, &longer[..16], Err(Some((6, 16))));
    answers(&rt, &[], Err(Some((1, 0))));
}
