//! What `demo` takes memory for, and nothing else: the words of the command line, the inputs and the streams, the
//! plan of `demo`, and its tables for the mode of the made file. `bench/allocations` counts the allocations of this
//! program beside those of `demo`.
#![tactic(auto)]

use plan_text::read_plan;
use ptu_cli::{DEMO_PLAN, FileInputs, StreamSink, words_behind_name};
use std::alloc::Global;
use std::env;
use std::process::ExitCode;
use tally_base::{Fault, Header, RecordType};
use tally_engine::Engine;

/// What the program takes from the header of the made file.
const HEADER: Header = Header {
    record_type: RecordType::HydraHarp2T2,
    count: None,
    global: None,
    resolution: None,
    version: *b"1.0.00\0\0",
};

/// Reads the plan, and opens its tables.
fn open_tables(alloc: Global) -> Result<(), Fault> {
    let plan = read_plan(alloc, DEMO_PLAN)?;
    let _engine = Engine::open(alloc, &plan, &HEADER)?;
    Ok(())
}

fn main(rt: HostRuntime) -> ExitCode {
    let _words = words_behind_name(rt.alloc(), env::args(&rt));
    let _inputs = FileInputs::new(&rt);
    let _out = StreamSink::new(rt.stdout());
    let _err = StreamSink::new(rt.stderr());
    match open_tables(rt.alloc()) {
        Ok(()) => ExitCode::SUCCESS,
        Err(fault) => ExitCode::from(fault.status()),
    }
}
