//! The first byte at which two lists of buffers differ.

use clmodel::text::Bytes;
use explore_runs::first_apart;
use std::alloc::Global;
use std::mem::replace;

/// Two lists of buffers, a word for each, and the buffer and the byte where they differ first.
const ROWS: [(&str, &str, Option<(usize, usize)>); 8] = [
    ("abc", "abd", Some((0, 2))),
    ("abc abc", "abc bbc", Some((1, 0))),
    // Of two buffers the lower, and there the lower byte
    ("abc abc", "abd bbc", Some((0, 2))),
    ("abc", "cba", Some((0, 0))),
    ("abc abc abc", "abc abc abc", None),
    // Only the bytes of the first list are compared, and only buffers that both have
    ("abc", "ab", Some((0, 2))),
    ("ab abc", "abc abc", None),
    ("abc", "abc abc", None),
];

/// The buffers that a text tells, a word for each. None where memory runs out.
fn buffers_of(alloc: Global, text: &str) -> Option<Vec<Bytes>> {
    let mut buffers = Vec::new(alloc);
    let mut bytes = Vec::new(alloc);
    for byte in text.as_bytes() {
        if *byte == b' ' {
            buffers
                .push(Bytes::new(replace(&mut bytes, Vec::new(alloc))))
                .ok()?;
        } else {
            bytes.push(*byte).ok()?;
        }
    }
    buffers.push(Bytes::new(bytes)).ok()?;
    Some(buffers)
}

/// The buffer and the byte where two lists differ first.
fn apart(one: &[Bytes], other: &[Bytes]) -> Option<(usize, usize)> {
    let place = first_apart(one, other)?;
    Some((place.buffer, place.byte))
}

/// Shows that the first difference is found wherever it is.
#[test]
fn first_differences(rt: HostRuntime) {
    for (one, other, expected) in ROWS {
        let (Some(x), Some(y)) = (buffers_of(rt.alloc(), one), buffers_of(rt.alloc(), other)) else {
            panic!(rt; "out of memory")
        };
        assert!(rt;
            apart(x.as_slice(), y.as_slice()) == expected,
            "{one} and {other}"
        );
    }
}
