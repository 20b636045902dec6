//! dictcat on the command line. The tests of its commands stand in `app_tests`.
#![tactic(auto)]

use app_commands::refuse_words;
use app_words::OverFiles;
use dict_desk::PlainDesk;
use dict_proto::{OverRead, OverWrite};
use dictcat_lib::{CatalogueFiles, SystemFiles, run_over};
use sqlite::Unknown;
use std::process::ExitCode;
use std::rt::Env;
use std::{env, io};

// The words that the program was given, its name first.
fn words<R: Env + AllocGlobal>(rt: &R) -> io::Result<Vec<String>> {
    Ok(env::args(rt)?.collect(rt.alloc())?)
}

fn main(rt: HostRuntime) -> ExitCode {
    let mut reader = OverRead::new(rt.reader());
    let mut writer = OverWrite::new(rt.stdout());
    let mut faults = OverWrite::new(rt.stderr());
    let status = match words(&rt) {
        Ok(words) => run_over(
            &rt,
            words.as_slice(),
            &mut CatalogueFiles::new(&rt, SystemFiles { start: Unknown }),
            &mut PlainDesk::new(rt.alloc()),
            &OverFiles::new(&rt),
            &mut reader,
            &mut writer,
            &mut faults,
        ),
        Err(fault) => refuse_words(&fault, &mut faults),
    };
    ExitCode::from(status)
}
