// The whole program: the words of its command line, the command that they ask for, and its exit status.
ghost use Rattle.std.specs.{Prelude.{◌≡◌, drop, false, None, Some, Ok, Err, IsOk, IfOk, IfErr}, Process.exit_status, IoError.error_kind, Vec.Iter.into_iter_items};
ghost use Rattle.{tally_base.specs.{declared.{slot.Slot.Slot, fault.Fault.TheVariants.OutOfMemory}, Faults.status_of}, command_work.specs.Endings.{IsMeant, TellsFault, LeavesCommand, span}};
ghost use Rattle.ptu_cli.specs.{Edge.fault_of_kind, Behaviours.{request_in, behaviour_of}, Runs.{Runs, around}};

use crate::edge::{FileInputs, StreamSink};
use crate::words::{Command, read_words};
use arrayvec::ArrayVec;
use bench_io::{Inputs, Sink, write_all};
use command_work::{by_plan, on_file};
use file_work::{Counting, Listing, Printing};
use pick_work::Picking;
use report_work::{Reporting, demo};
use std::alloc::Global;
use std::env::Args;
use std::io::ErrorKind;
use std::process::ExitCode;
use std::{env, io};
use tally_base::{Fault, fault_line};
use trace_work::Tracing;

/// Does what the words ask for.
#[tactic(auto, unfolding(command_work::specs::Endings::outcome, command_work::specs::Endings::HasCauses))]
fn obey<I: Inputs, O: Sink>(
    alloc: Global,
    words: &[String],
    inputs: &mut I,
    out: &mut O,
) -> Result<(), Fault>
    requires meant { IsMeant (I.state inputs.old) (behaviour_of words.now) }
    requires first { (slot : Slot) → (I.state inputs.old).asked slot ≡ false }
    ensures does { LeavesCommand (behaviour_of words.now)
        (span I.Inputs O.Sink inputs.old inputs.new out.old out.new) result }
    ensures usage { request_in words.now ≡ None → result ≡ Err Fault.Usage }
{
    let Some(command) = read_words(words) else {
        return Err(Fault::Usage);
    };
    match command {
        Command::Count { file } => on_file(&Counting, inputs, out, file),
        Command::Header { file } => on_file(&Printing, inputs, out, file),
        Command::Events { file } => on_file(&Listing, inputs, out, file),
        Command::Run { plan, file } => by_plan(&Reporting, alloc, inputs, out, plan, file),
        Command::Trace { plan, file } => by_plan(&Tracing, alloc, inputs, out, plan, file),
        Command::Pick { plan, group, file } => by_plan(
            &Picking { group },
            alloc,
            inputs,
            out,
            plan,
            file,
        ),
        Command::Demo { seed, count } => demo(alloc, out, seed, count),
    }
}

/// Writes the line of a fault, or a prefix of it where a write fails.
pub fn tell<E: Sink>(fault: &Fault, err: &mut E)
    ensures { TellsFault (E.state err.old) (E.state err.new) (Some fault.now) }
{
    let mut line = ArrayVec::<u8, 96>::new();
    fault_line(fault, &mut line);
    let _ = write_all(err, line.as_slice());
}

/// Does all that the program does, and answers its exit status: 0, or that of the one fault whose
/// line is written to `err`. The words are those after the program's name.
///
/// What a command does is told by its shape (`behaviour`): `demo` stands alone, `count`, `header`
/// and `events` are on FILE, and `run`, `trace` and `pick` are by a plan. `outcome` is the end that the contents of PLAN
/// and FILE call for, after PicoQuant's unified TTTR format: a text, and a fault or none.
///
/// | Status | No command | Alone | On FILE | By a plan |
/// |---|---|---|---|---|
/// | 0 | never | all is written | all is written | all is written |
/// | 1 | always | never | never | never |
/// | 2 | never | never | FILE is not opened | PLAN is not opened, or FILE after a plan |
/// | 3 | never | never | a read of FILE fails | a read of PLAN fails, or one of FILE |
/// | 4 | never | a write fails | a write fails | a write fails |
/// | 5 | never | nothing is written | never | before FILE is asked for, or at its header |
/// | 6 to 8 | never | never | never | PLAN is no plan |
/// | 9 | never | never | never | the plan does not suit FILE |
/// | 10 to 21 | never | never | FILE is refused | FILE is refused |
/// | 22 | never | never | never | the plan has no trace |
/// | 23 | never | never | never | the plan has no such group |
/// | 24 | never | never | never | a photon is too late to be written |
///
/// 5 stands for want of memory. It may come only where the command takes memory: before PLAN is
/// asked for, after a whole plan, or after a header that a plan with a table suits. That memory
/// was refused is not said.
///
/// After 2 and 5 nothing is written. After 3 nothing is, or, where the text is written while FILE
/// is read (`header`, `events`, `trace`, `pick`), what the bytes read call for. After 4 the text is cut short; one
/// that is written at the end is written only where the run would have ended with 0.
///
/// All that is promised is `Runs`, a fact for each of these, with its name.
///
/// Nothing may have been asked of the inputs before, and the words FILE and PLAN of the command
/// must be meant for the slots Data and Plan.
pub fn ptu_main<I: Inputs, O: Sink, E: Sink>(
    alloc: Global,
    words: &[String],
    inputs: &mut I,
    out: &mut O,
    err: &mut E,
) -> u8
    requires meant { IsMeant (I.state inputs.old) (behaviour_of words.now) }
    requires first { (slot : Slot) → (I.state inputs.old).asked slot ≡ false }
    ensures { Runs (request_in words.now)
        (around I.Inputs O.Sink E.Sink inputs.old inputs.new out.old out.new err.old err.new)
        result }
{
    match obey(alloc, words, inputs, out) {
        Ok(()) => 0,
        Err(fault) => {
            tell(&fault, err);
            fault.status()
        }
    }
}

/// Words that can't be had are a bad command line, unless memory ran out.
fn fault_of(kind: ErrorKind) -> Fault
    ensures { result ≡ fault_of_kind kind }
{
    match kind {
        ErrorKind::OutOfMemory => Fault::OutOfMemory,
        _ => Fault::Usage,
    }
}

/// The words after the first, in order.
fn behind_first(alloc: Global, mut args: Args) -> Result<Vec<String>, Fault>
    ensures words { IfOk result (λ line. line.items ≡ drop 1 (into_iter_items args)) }
    ensures memory { IfErr result (λ fault. fault ≡ OutOfMemory) }
{
    let _name = args.next();
    let mut line = Vec::new(alloc);
    'words: while let Some(word) = args.next() {
        if line.push(word).is_err() {
            return Err(Fault::OutOfMemory);
        }
    }
    Ok(line)
}

/// The words after the program's name, in order. Where the system's words can't be had it is refused
/// with `OutOfMemory` if that is the kind of the error, and else, as for a word that is not UTF-8, with
/// `Usage`; where there is no memory for the words, with `OutOfMemory`.
pub fn words_behind_name(alloc: Global, args: io::Result<Args>) -> Result<Vec<String>, Fault>
    ensures words { IfOk args
        (λ all. IfOk result (λ line. line.items ≡ drop 1 (into_iter_items all))) }
    ensures kind { IfErr args (λ error. result ≡ Err (fault_of_kind (error_kind error))) }
    ensures memory { IsOk args → IfErr result (λ fault. fault ≡ OutOfMemory) }
{
    match args {
        Ok(args) => behind_first(alloc, args),
        Err(error) => Err(fault_of(error.kind())),
    }
}

/// Does all that the program does after its words, and answers the exit status: that of the run which
/// the words ask for, or that of the fault for which there are none, whose line is written to `err`.
pub fn exit_of<I: Inputs, O: Sink, E: Sink>(
    alloc: Global,
    words: Result<Vec<String>, Fault>,
    inputs: &mut I,
    out: &mut O,
    err: &mut E,
) -> ExitCode
    requires meant { IfOk words (λ line. IsMeant (I.state inputs.old) (behaviour_of line.items)) }
    requires first { (slot : Slot) → (I.state inputs.old).asked slot ≡ false }
    ensures runs { IfOk words (λ line. Runs (request_in line.items)
        (around I.Inputs O.Sink E.Sink inputs.old inputs.new out.old out.new err.old err.new)
        (exit_status result)) }
    ensures without_words { IfErr words (λ fault. (exit_status result ≡ status_of fault)
        × TellsFault (E.state err.old) (E.state err.new) (Some fault)) }
    ensures untouched { IfErr words (λ fault. (inputs.new ≡ inputs.old) × (out.new ≡ out.old)) }
{
    match words {
        Ok(words) => ExitCode::from(ptu_main(alloc, words.as_slice(), inputs, out, err)),
        Err(refusal) => {
            tell(&refusal, err);
            ExitCode::from(refusal.status())
        }
    }
}

/// The program, on the words, files and streams of the system.
pub fn program(rt: &HostRuntime) -> ExitCode {
    let words = words_behind_name(rt.alloc(), env::args(rt));
    let mut inputs = FileInputs::new(rt);
    let mut out = StreamSink::new(rt.stdout());
    let mut err = StreamSink::new(rt.stderr());
    exit_of(rt.alloc(), words, &mut inputs, &mut out, &mut err)
}
