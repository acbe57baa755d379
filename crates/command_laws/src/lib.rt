//! Laws over all commands, which the program doesn't need: their outcomes by a table for each, where each fault
//! comes from, and the statuses of their runs, each as the contract of a function that does nothing. Begin with
//! `specs/CommandCases.antt` of `ptu_cli`.
#![tactic(auto)]

ghost use Rattle.std.specs.{Prelude.{◌≡◌, ◌≤◌, ◌↔◌, ℕ, List, None, Some, length}, declared.option.Option.Option};
ghost use Rattle.{bench_io.specs.Inputs.File, ptu_definitions.specs.Words.record_limit, record_write.specs.Picked.{CanBePicked, picked_words, picked_file}, ptu_made.specs.Records.made_file};
ghost use Rattle.{ptu_made.specs.Generator.photon_limit, tally_base.specs.{declared.{event.Event.Event, header.Mode.Mode, fault.Fault.{Fault, TheVariants.Usage}}, Faults.status_of}};
ghost use Rattle.ptu_cli.specs.{Commands.{Request, Run, Pick, Demo}, Tables.{Phase, HasStatus, Sound}, CommandCases.{cases, IsOutcome}, Runs.{Around, Runs}, Behaviours.behaviour};
ghost use Rattle.{report_work.specs.Demo.demo_text, command_work.specs.{Outcomes.Outcome, Endings.outcome}, command_laws.specs.Ends.{ends_with, EndsWithFault, EndsWhere, MayEndWith, IsPickable}};
ghost use Rattle.command_laws.specs.{Ends.{Lists, ListsWritten, EndsWellOrLate, EndsStay}, ToldFiles.OverToldFiles};

/// A `demo` ends as `run` does on the text of its plan and the made file.
pub fn demo_is_a_run()
    ensures { (plan_name name : List ℕ) (seed count : ℕ) → count ≤ photon_limit
        → ends_with (Run plan_name name) (Some demo_text) (Some (made_file seed count))
        ≡ ends_with (Demo seed count) None None }
{}

/// `events` lists the file of photons that can be written as these photons, at their places in this file, and
/// none of them as late.
pub fn picked_photons_are_listed()
    ensures { (name : List ℕ) (mode : Mode) (photons : List Event) → CanBePicked mode photons
        → length (picked_words mode photons) ≤ record_limit
        → Lists name (picked_file mode photons) mode photons }
{}

/// What `pick` writes of a file with a header, by a plan that has the group and suits the file, and whatever its records
/// call for, is a file of photons: `events` lists just those that were written, at their places in that file, and none of
/// them as late, where its words are at most 2^40.
pub fn what_is_picked_is_listed()
    ensures { (plan_name file name : List ℕ) (group : ℕ) (plan_file data_file : File)
        → ListsWritten group plan_file data_file name
        (ends_with (Pick plan_name group file) plan_file data_file).text }
{}

/// The outcome of a command over its files is the one that a line of its table (`cases`) calls for, and no other.
pub fn one_outcome()
    ensures { (request : Option Request) (plan_file data_file : File) (end : Outcome)
        → IsOutcome request plan_file data_file end
        ↔ (outcome (behaviour request) plan_file data_file ≡ end) }
{}

/// A command ends with a fault exactly where a line of its table (`cases`) calls for it: with status 1 where the words are no command,
/// with 2 where a file is not there, 6 to 8 where PLAN is no plan, 9 where a part of it doesn't suit, 10 to
/// 16 where FILE is refused as a header, 17 where it ends within a record, 18 to 21 where a record is refused, 22 and 23
/// where the plan lacks what the command needs (a trace, or the group of the number), and 24 where a photon of the
/// group is too late to be written.
pub fn exactly_where()
    ensures words { (request : Option Request) (plan_file data_file : File)
        → EndsWithFault request plan_file data_file Usage ↔ (request ≡ None) }
    ensures phases { (phase : Phase) → EndsWhere phase }
{}

/// `pick` ends well by a plan that has the group, over a file that suits it and whose records are whole and not refused,
/// or with the fault that names a photon of the group that is too late to be written.
pub fn pick_ends_well_or_late()
    ensures { (plan_name : List ℕ) (group : ℕ) (file : List ℕ) (plan_file data_file : File)
        → IsPickable group plan_file data_file
        → EndsWellOrLate (Pick plan_name group file) plan_file data_file }
{}

/// The faults that the words and files of each command may call for, by their statuses: usage where there is no command,
/// none for `demo`, else those of the lines of its table (`cases`). The bounds of a line are those of its phase or nearer,
/// and hold all its ends. Beside these a run may end with 0, and with 2 to 5 for what fails outside.
pub fn statuses_of_commands()
    ensures lines { (request : Option Request) → Sound (cases request) }
    ensures faults { (request : Option Request) (plan_file data_file : File) (fault : Fault)
        → EndsWithFault request plan_file data_file fault
        → HasStatus (cases request) (status_of fault) }
{}

/// Bytes of FILE call for no end by themselves, or the run ends as they say whatever comes after them: a
/// refusal of a header, also a whole header for `header`, a plan that doesn't suit it, a refused record, and for `pick` a
/// photon that is settled and too late.
pub fn an_end_that_is_shown_stays()
    ensures { (request : Option Request) → EndsStay (behaviour request) }
{}

/// The statuses that a run of each command may end with, whatever fails: 1 for words that are no command; 0, 2 to 4, 10
/// to 17 and 20 for `count`; 0, 2 to 4 and 10 to 16 for `header`; 0, 2 to 4, 10 to 17, 20 and 21 for `events`; 0 and 2 to
/// 21 for `run`; 0 and 2 to 22 for `trace`; 0, 2 to 21, 23 and 24 for `pick`; 0, 4 and 5 for `demo`.
pub fn statuses_of_runs()
    ensures { (request : Option Request) (run : Around) (result : ℕ) → Runs request run result
        → MayEndWith request result }
{}

/// What is promised of a run holds over the files that its inputs tell, as those in memory do: where nothing outside
/// failed it ends as these files call for, what was taken is the front of a file that is there, and so each fact of `Runs`.
pub fn over_told_files()
    ensures { (request : Option Request) (run : Around) (result : ℕ) → Runs request run result
        → OverToldFiles request run result }
{}
