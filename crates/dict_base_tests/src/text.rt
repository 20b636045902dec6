//! Characters, blanks and lines.
use crate::checks::holds;
use dict_text::{
    has_control, is_blank, is_blank_octet, is_control, is_control_octet, text_lines,
    without_blanks_at_ends, without_leading_blanks,
};

// A character, whether it is a blank, and whether it is a control.
static CHARACTERS: [(char, bool, bool); 8] = [
    (' ', true, false),
    ('\t', true, true),
    ('\n', false, true),
    ('\u{a0}', false, false),
    ('\0', false, true),
    ('\u{1f}', false, true),
    ('\u{7f}', false, true),
    ('\u{80}', false, false),
];

// The same of octets.
static OCTETS: [(u8, bool, bool); 4] = [
    (b'\t', true, true),
    (0x7f, false, true),
    (0x80, false, false),
    (0xa0, false, false),
];

// A text, what is behind its leading blanks, what is between the blanks at its ends, and whether it has a control.
static TEXTS: [(&[u8], &[u8], &[u8], bool); 7] = [
    (b"", b"", b"", false),
    (b" \t", b"", b"", true),
    (b"\t a b \t", b"a b \t", b"a b", true),
    (b"a", b"a", b"a", false),
    (b"\n ", b"\n ", b"\n", true),
    (b"a\nb", b"a\nb", b"a\nb", true),
    (b"a\xc2\x80 b", b"a\xc2\x80 b", b"a\xc2\x80 b", false),
];

#[test]
fn characters_and_blanks(rt: HostRuntime) {
    for (character, blank, control) in &CHARACTERS {
        holds(&rt, is_blank(*character) == *blank, "a blank");
        holds(&rt, is_control(*character) == *control, "a control");
    }
    for (octet, blank, control) in &OCTETS {
        holds(&rt, is_blank_octet(*octet) == *blank, "a blank octet");
        holds(&rt, is_control_octet(*octet) == *control, "an octet");
    }
    for (text, behind, between, control) in &TEXTS {
        holds(&rt, without_leading_blanks(text) == *behind, "behind");
        holds(&rt, without_blanks_at_ends(text) == *between, "between");
        holds(&rt, has_control(text) == *control, "a control in a text");
    }
}

// A text, and its lines.
static LINES: [(&[u8], &[&[u8]]); 4] = [
    (b"", &[]),
    (b"a\n\n.b", &[b"a", b"", b".b"]),
    (b"a\n", &[b"a"]),
    (b"\n", &[b""]),
];

fn has_lines(text: &[u8], wanted: &[&[u8]]) -> bool {
    let mut left = text_lines(text);
    for line in wanted {
        if left.next() != Some(*line) {
            return false;
        }
    }
    left.next().is_none()
}

#[test]
fn lines_of_texts(rt: HostRuntime) {
    for (text, wanted) in &LINES {
        holds(&rt, has_lines(text, wanted), "lines");
        holds(&rt, text_lines(text).count() == wanted.len(), "count");
    }
}
