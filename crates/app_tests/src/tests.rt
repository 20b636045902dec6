//! The test. The prover links each by itself, with all of the program that it reaches: so there is one, and it tries much.
use crate::{catalogues, paths, serving, usage};
use std::process::Abort;

// What the program does with words, over files.
fn try_words(test: &impl Abort, rt: &HostRuntime) {
    catalogues::commands_one_after_another(test, rt);
    catalogues::outputs_that_are_full(test, rt);
    catalogues::files_of_the_machine_are_read(test, rt);
    paths::paths_without_a_catalogue(test, rt);
    paths::a_desk_from_a_path(test, rt);
    serving::a_server_ends_after_its_rounds(test, rt);
    usage::shows_help_and_tells_mistakes(test, rt);
    usage::tells_the_version(test, rt);
    usage::each_help_has_an_example_and_the_statuses(test, rt);
    usage::refuses_words_that_are_no_texts(test, rt);
}

#[test]
fn words_are_answered(rt: HostRuntime) {
    try_words(&rt, &rt);
}
