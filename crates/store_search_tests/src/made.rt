//! Headwords made by fixed arithmetic, a line for each.
use std::alloc::Global;
use std::process::Abort;

// Letters of six scripts, 24 each, with what keys fold or leave out among them: upper case, accents, points, a dash, blanks.
static SCRIPTS: [&str; 6] = [
    "etaoinsrhldcumfpgwEA 7-'",
    "αβγδεζηθικλμνξοπρστΣάΩ ς",
    "ابتثجحخدذرزسشصضطعغفقكل \u{64e}",
    "कखगघचछजझटठडढतथदधनपबम ा\u{93f}\u{94d}",
    "אבגדהוזחטיכלמנסעפצקרש \u{5b8}\u{5bc}",
    "天地玄黃宇宙洪荒日月盈昃辰宿列張寒來暑往秋收冬 ",
];

fn following(state: u32) -> u32 {
    state.wrapping_mul(1_664_525).wrapping_add(1_013_904_223)
}

// A headword of one to nine of the letters.
fn add_headword(rt: &impl Abort, text: &mut String, letters: &str, from: u32) -> u32 {
    let mut state = following(from);
    let count = 1 + (state >> 16) % 9;
    for _ in 0..count {
        state = following(state);
        if let Some(letter) = letters.chars().nth((state >> 16) as usize % 24) {
            text.push(letter).expect(rt, "memory");
        }
    }
    text.push('\n').expect(rt, "memory");
    state
}

// A headword of each script.
fn add_round(rt: &impl Abort, text: &mut String, from: u32) -> u32 {
    let mut state = from;
    for letters in &SCRIPTS {
        state = add_headword(rt, text, letters, state);
    }
    state
}

/// So many headwords of each script, by turns. Of more rounds the first headwords are the same.
pub(crate) fn made_headwords(rt: &impl Abort, alloc: Global, rounds: u32) -> String {
    let mut text = String::new(alloc);
    let mut state = 1;
    for _ in 0..rounds {
        state = add_round(rt, &mut text, state);
    }
    text
}

/// So many lines that are the same.
pub(crate) fn repeated(rt: &impl Abort, alloc: Global, line: &str, count: u32) -> String {
    let mut text = String::new(alloc);
    for _ in 0..count {
        text.push_str(line).expect(rt, "memory");
    }
    text
}
