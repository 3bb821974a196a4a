//! Which of two refusals is the answer, and the words of the refusals.

use crate::machine::play::{Row, plays_rows, same};
use std::alloc::Global;
use std::process::Abort;
use zops::Refusal;

const EARLIER: Row = &[
    ("1 open 20", "ok session 1 timeout 20"),
    ("1 create /p p aGk=", "ok /p"),
    ("1 create /p/c p aGk=", "ok /p/c"),
    // a gone session, and the root; the root, and a name without digits
    ("1 create / e:9 aGk=", "no SessionGone"),
    ("1 create / ps aGk=", "no NodeExists"),
    // the root, and another version; another version, and children
    ("1 delete / 5", "no RootFixed"),
    ("1 delete /p 5", "no BadVersion"),
    ("1 delete /p any", "no NotEmpty"),
];

const WORDS: [(Refusal, &str); 12] = [
    (Refusal::NoNode, "NoNode"),
    (Refusal::NodeExists, "NodeExists"),
    (Refusal::NotEmpty, "NotEmpty"),
    (Refusal::BadVersion, "BadVersion"),
    (Refusal::NoChildrenForEphemerals, "NoChildrenForEphemerals"),
    (Refusal::SessionGone, "SessionGone"),
    (Refusal::SequenceFull, "SequenceFull"),
    (Refusal::PathLimit, "PathLimit"),
    (Refusal::RootFixed, "RootFixed"),
    (Refusal::Full, "Full"),
    (Refusal::TooManySessions, "TooManySessions"),
    (Refusal::Exhausted, "Exhausted"),
];

#[test]
fn earlier_refusals_are_the_answer(rt: HostRuntime) {
    plays_rows(&rt, rt.alloc(), &[EARLIER]);
}

#[test]
fn names_each_refusal(rt: HostRuntime) {
    are_named(&rt, rt.alloc(), &WORDS);
}

fn are_named(rt: &impl Abort, alloc: Global, words: &[(Refusal, &str)]) {
    for (refusal, want) in words {
        is_named(rt, alloc, *refusal, want);
    }
}

fn is_named(rt: &impl Abort, alloc: Global, refusal: Refusal, want: &str) {
    let word = format!(in alloc; "{refusal}").expect(rt, "there is memory");
    same(rt, "a refusal", &word, want);
}
