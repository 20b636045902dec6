// Parts of texts that are kept: which stay, and which go.
use std::alloc::Global;
use std::process::Abort;
use store_holdings::{MAX_TEXTS, PartKey, TextParts};

// Keeps a text under the key.
fn put(rt: &impl Abort, alloc: Global, texts: &mut TextParts, key: PartKey, octets: &[u8]) {
    let text = Vec::from_slice(alloc, octets).expect(rt, "memory");
    texts.put(key, text).expect(rt, "memory");
}

// The text under the key, which is kept still.
fn same(rt: &impl Abort, texts: &mut TextParts, key: PartKey, wanted: Option<&[u8]>) {
    match (texts.take(key), wanted) {
        (Some(found), Some(octets)) => {
            assert!(rt; found.as_slice() == octets, "the text {key:?}");
            texts.put(key, found).expect(rt, "memory");
        }
        (None, None) => {}
        _ => panic!(rt; "kept, or not: {key:?}"),
    }
}

#[test]
fn a_text_is_kept_under_its_key(rt: HostRuntime) {
    let alloc = rt.alloc();
    let mut texts = TextParts::new(alloc);
    same(&rt, &mut texts, (1, 0), None);
    put(&rt, alloc, &mut texts, (1, 0), b"opal");
    put(&rt, alloc, &mut texts, (2, 0), b"");
    put(&rt, alloc, &mut texts, (1, 1), b"ore");
    put(&rt, alloc, &mut texts, (1, 0), b"fire opal");
    same(&rt, &mut texts, (1, 0), Some(b"fire opal"));
    same(&rt, &mut texts, (2, 0), Some(b""));
    same(&rt, &mut texts, (1, 1), Some(b"ore"));
    same(&rt, &mut texts, (0, 1), None);
    texts.forget_all();
    same(&rt, &mut texts, (1, 0), None);
    put(&rt, alloc, &mut texts, (3, 0), b"dot");
    same(&rt, &mut texts, (3, 0), Some(b"dot"));
}

#[test]
fn one_text_more_takes_the_place_of_the_last(rt: HostRuntime) {
    let alloc = rt.alloc();
    let mut texts = TextParts::new(alloc);
    for part in 0..MAX_TEXTS as u64 {
        put(&rt, alloc, &mut texts, (1, part), b"o");
    }
    same(&rt, &mut texts, (1, 0), Some(b"o"));
    put(&rt, alloc, &mut texts, (2, 0), b"oo");
    same(&rt, &mut texts, (1, 1), None);
    same(&rt, &mut texts, (1, 0), Some(b"o"));
    same(&rt, &mut texts, (1, 2), Some(b"o"));
}
