// Commands one after another.
use super::asked::{Asked, push_kept, push_refusal};
use super::files::{GEM, read};
use crate::checks::{same, same_text};
use dict_catalogue::{CommandRefusal, Kept};
use dict_desk::{Fault, Halted, Lookup, PlainDesk, apply_all};
use dict_index::Edition;
use std::alloc::Global;
use std::process::Abort;

/// The answers in order.
fn told_all(rt: &impl Abort, alloc: Global, answers: &[Result<Kept, CommandRefusal>]) -> String {
    let mut text = String::new(alloc);
    for answer in answers {
        match answer {
            Ok(kept) => push_kept(rt, alloc, &mut text, kept),
            Err(refusal) => push_refusal(rt, alloc, &mut text, refusal.number(), refusal.name()),
        }
        text.push_str("; ").expect(rt, "memory");
    }
    text
}

/// What a desk answers to an install, a rollback, a repeat of the first id and a retire.
fn told_four(
    rt: &impl Abort,
    alloc: Global,
    desk: &mut PlainDesk,
    gem: &Edition<'static>,
) -> String {
    let requests = [
        ("r1", Asked::Install("gem").command(gem)),
        ("r2", Asked::Rollback("gem").command(gem)),
        ("r1", Asked::Retire("gem").command(gem)),
        ("r2", Asked::Retire("gem").command(gem)),
    ];
    let answers = apply_all(alloc, desk, &requests).expect(rt, "answers");
    told_all(rt, alloc, answers.as_slice())
}

/// What comes after it: nothing is there, and no command is no answer.
fn check_after(rt: &impl Abort, alloc: Global, desk: &mut PlainDesk) {
    let summary = desk.summary().expect(rt, "a summary");
    same(rt, &summary.items.len(), &0);
    same(rt, &summary.accepted, &2);
    let answers = apply_all(alloc, desk, &[]).expect(rt, "answers");
    same(rt, &answers.len(), &0);
}

#[test]
fn each_in_turn(rt: HostRuntime) {
    let alloc = rt.alloc();
    let gem = read(&rt, alloc, GEM);
    let mut desk = PlainDesk::new(alloc);
    let text = told_four(&rt, alloc, &mut desk, &gem);
    same_text(
        &rt,
        text.as_str(),
        "1 Install gem #1; 23 NoFormer; 1 Install gem #1; 2 Retire gem; ",
    );
    check_after(&rt, alloc, &mut desk);
}

#[test]
fn a_halt(rt: HostRuntime) {
    let halted = Halted {
        stand: 2,
        fault: Fault::Disk,
    };
    same(&rt, &halted.fault.number(), &41);
}
