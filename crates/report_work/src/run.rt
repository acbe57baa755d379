// The command `run`: the records of a file are counted by a plan.
ghost use Rattle.std.specs.Prelude.{◌≡◌, ◌+◌, ◌*◌, ◌<◌, ◌≤◌, List, ℕ, length, ◌++◌, None, OnOk};
ghost use Rattle.{tally_base.specs.Faults.fault_in, ptu_definitions.specs.{Words.{record_limit, words_of}, Streams.record_refusal}, tally_engine.specs.Engine.{HasFed, SameEngine, Finishes}};
ghost use Rattle.{tally_engine.specs.Engine.{reading_of, refused_by, bytes_fed}, command_work.specs.Behaviours.{AtEnd, ForTables}, report_work.specs.Reports.{IsLedger, any_plan, reporting}};

use bench_io::{Inputs, Sink};
use command_work::{Job, PlanWork, Reader, read_file};
use plan_text::Plan;
use std::alloc::Global;
use std::marker::Brand;
use std::sync::ledger::{Blank, Ledger};
use table_out::write_report;
use tally_base::{Fault, Header, Steps};
use tally_engine::{Engine, Results};

/// Feeds an engine a piece. Nobody asks for the number of steps, which is counted from 0.
fn feed_engine<L: Ledger>(blank: Blank, engine: &mut Engine, piece: &[u8]) -> Result<(), Fault>
    requires { IsLedger blank.name blank.parts L.name L.parts }
    ensures taken { (bytes : List ℕ) → HasFed engine.old bytes → HasFed engine.new (bytes ++ piece.now) }
    ensures answer { refused_by engine.old ≡ None → (bytes : List ℕ) → HasFed engine.old bytes
        → fault_in result ≡ record_refusal (reading_of engine.old) (words_of (bytes ++ piece.now)) }
    ensures refused { refused_by engine.new ≡ fault_in result }
    ensures counted { OnOk result (bytes_fed engine.new ≡ bytes_fed engine.old + length piece.now) }
    ensures limit { bytes_fed engine.new ≤ 4 * record_limit + 3 }
    ensures same { SameEngine engine.old engine.new }
{
    let mut steps = Steps::<L>::new(blank);
    engine.feed(piece, &mut steps)
}

/// Closes the tables of an engine.
fn finish_engine<L: Ledger>(blank: Blank, engine: Engine) -> Result<Results, Fault>
    requires { IsLedger blank.name blank.parts L.name L.parts }
    ensures { (bytes : List ℕ) → HasFed engine bytes → Finishes engine bytes result }
{
    let mut steps = Steps::<L>::new(blank);
    engine.finish(&mut steps)
}

/// Counts what a plan asks for, and writes the report at the end.
#[derive(Drop)]
pub(crate) struct RunReader<'p> {
    engine: Engine,
    plan: &'p Plan,
}

impl<'p> Reader for RunReader<'p> {
    ghost use Rattle.std.specs.Prelude.{◌-◌};
    ghost use Rattle.plan_text.specs.ReadPlan.{plan_view};
    ghost use Rattle.tally_engine.specs.Engine.{header_of};
    ghost use Rattle.report_work.{specs.Reports.{reports, CountsBy}, specs.RunLaws.{reports-law, counts-clear}};

    ghost tells = { λ r. reports (plan_view r.plan.now) (header_of r.engine) };

    ghost stands = { λ r bytes. CountsBy (plan_view r.plan.now) r.engine bytes };

    ghost room = { λ r. 4 * record_limit + 3 - bytes_fed r.engine };

    fn piece<O: Sink>(&mut self, piece: &[u8], _out: &mut O) -> Result<(), Fault> {
        feed_engine::<Brand>(Blank::new(1), &mut self.engine, piece)
    }

    fn end<O: Sink>(self, out: &mut O) -> Result<(), Fault> {
        let results = finish_engine::<Brand>(Blank::new(1), self.engine)?;
        write_report(&results, out)
    }

    ghost law = { λ r. reports-law (plan_view r.plan.now) (header_of r.engine) };

    ghost clear = { λ r bytes h. counts-clear (plan_view r.plan.now) r.engine bytes h };
}

/// The work on what a plan asks for.
#[derive(Drop)]
pub(crate) struct RunJob<'p> {
    pub alloc: Global,
    pub plan: &'p Plan,
    ghost records: { (0 < plan.now.policy.records) × (plan.now.policy.records ≤ record_limit) },
}

impl<'p> Job for RunJob<'p> {
    ghost use Rattle.plan_text.specs.ReadPlan.{plan_view};
    ghost use Rattle.command_work.{specs.Behaviours.{AtEnd, ForTables}, specs.Endings.WantsBehind};
    ghost use Rattle.report_work.{specs.Reports.{reporting, reports_by, MayWant}, specs.RunLaws.reporting-suits};

    type Reader = RunReader<'p>;

    ghost work = { λ job. reporting (plan_view job.plan.now) };

    ghost writing = { λ job. AtEnd };

    ghost wanting = { λ job. WantsBehind ForTables (plan_view job.plan.now) };

    ghost tells = { λ job header. reports_by (plan_view job.plan.now) header };

    ghost wants = { λ job header. MayWant (plan_view job.plan.now) header };

    fn open<O: Sink>(&self, header: &Header, _out: &mut O) -> Result<RunReader<'p>, Fault> {
        let engine = Engine::open(self.alloc, self.plan, header)?;
        Ok(RunReader {
            engine,
            plan: self.plan,
        })
    }

    ghost law = { λ job. reporting-suits (plan_view job.plan.now) };
}

/// Counts what a plan asks for in a file, and writes the report. Nothing is written before the data
/// are read to their end.
#[derive(Clone, Copy)]
pub struct Reporting;

impl PlanWork for Reporting {
    ghost lacking = { λ it. any_plan };

    ghost work = { λ it. reporting };

    ghost writing = { λ it. AtEnd };

    ghost memory = { ForTables };

    fn lacks(&self, _plan: &Plan) -> Option<Fault> {
        None
    }

    fn read<I: Inputs, O: Sink>(
        &self,
        alloc: Global,
        inputs: &mut I,
        out: &mut O,
        plan: &Plan,
    ) -> Result<(), Fault> {
        read_file(&RunJob { alloc, plan }, inputs, out)
    }
}
