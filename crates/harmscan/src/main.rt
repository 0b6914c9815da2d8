// The program: it runs the words of the command line over the files and streams of the system.
#![tactic(auto)]

use harm_io::{FileShelf, StreamSink};
use harmscan_core::run_collected;
use std::process::ExitCode;
use std::{env, io};

/// The words of the command line, without the program's name.
fn words(rt: &HostRuntime) -> io::Result<Vec<String>> {
    let mut words = env::args(rt)?;
    let _ = words.next();
    Ok(words.collect(rt.alloc())?)
}

fn main(rt: HostRuntime) -> ExitCode {
    let status = run_collected(
        rt.alloc(),
        &words(&rt),
        &mut FileShelf::new(&rt, rt.alloc()),
        &mut StreamSink::new(rt.stdout()),
        &mut StreamSink::new(rt.stderr()),
    );
    ExitCode::from(status)
}
