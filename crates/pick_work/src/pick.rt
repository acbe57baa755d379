// The photons of a group of a plan, written while the data are read.
ghost use Rattle.std.specs.Prelude.{◌≡◌, ◌<◌, ◌≤◌, None};
ghost use Rattle.{ptu_definitions.specs.Words.record_limit, plan_text.specs.ReadPlan.plan_view, pick_work.specs.PickOutcomes.no_group};

use bench_io::Sink;
use command_work::{Job, Reader};
use gate_plan::Gates;
use photon_pick::{pick_end, pick_piece};
use plan_text::Plan;
use record_stream::RecordStream;
use record_write::Picker;
use tally_base::{Fault, Header};

/// Writes the photons of a group to a file of their own.
#[derive(Drop)]
pub(crate) struct PickReader {
    stream: RecordStream,
    gates: Gates,
    group: u8,
    picker: Picker,
    ghost grouped: { (0 < group) × (group ≤ 64) },
}

impl Reader for PickReader {
    ghost use Rattle.std.specs.Prelude.{◌+◌, ◌*◌, ◌-◌};
    ghost use Rattle.ptu_definitions.specs.Words.{record_limit};
    ghost use Rattle.gate_plan.specs.Groups.{sorting_of};
    ghost use Rattle.record_stream.specs.Standing.{how_of, bytes_in};
    ghost use Rattle.photon_pick.specs.Chosen.{is_chosen};
    ghost use Rattle.pick_work.{specs.PickOutcomes.{picks, HasWritten}, specs.PickLaws.{picks-law, written-clear}};

    ghost tells = { λ r. picks (is_chosen (sorting_of r.gates) r.group) (how_of r.stream) };

    ghost stands = { λ r bytes. HasWritten (is_chosen (sorting_of r.gates) r.group) r.stream r.picker bytes };

    ghost room = { λ r. 4 * record_limit + 3 - bytes_in r.stream };

    fn piece<O: Sink>(&mut self, piece: &[u8], out: &mut O) -> Result<(), Fault> {
        pick_piece(
            &mut self.stream,
            &self.gates,
            self.group,
            &mut self.picker,
            piece,
            out,
        )
    }

    fn end<O: Sink>(self, out: &mut O) -> Result<(), Fault> {
        pick_end(self.stream, &self.gates, self.group, self.picker, out)
    }

    ghost law = { λ r. picks-law (is_chosen (sorting_of r.gates) r.group) (how_of r.stream) };

    ghost clear = { λ r bytes h. written-clear (is_chosen (sorting_of r.gates) r.group) r.stream r.picker bytes h };
}

/// The work on the photons of a plan's group. The plan has such a group.
#[derive(Drop)]
pub(crate) struct PickJob<'p> {
    pub plan: &'p Plan,
    pub group: u8,
    ghost records: { (0 < plan.now.policy.records) × (plan.now.policy.records ≤ record_limit) },
    ghost grouped: { no_group group (plan_view plan.now) ≡ None },
}

impl<'p> Job for PickJob<'p> {
    ghost use Rattle.plan_text.specs.ReadPlan.{plan_view};
    ghost use Rattle.command_work.{specs.Behaviours.AsItReads, specs.Works.WantsNone};
    ghost use Rattle.pick_work.{specs.PickOutcomes.{pick_so_far, picking, picks_by}, specs.PickLaws.picking-suits};

    type Reader = PickReader;

    ghost work = { λ job. picking job.group (plan_view job.plan.now) };

    ghost writing = { λ job. AsItReads (pick_so_far job.group (plan_view job.plan.now)) };

    ghost wanting = { λ job. WantsNone };

    ghost tells = { λ job header. picks_by job.group (plan_view job.plan.now) header };

    ghost wants = { λ job header. ⊥ };

    fn open<O: Sink>(&self, header: &Header, out: &mut O) -> Result<PickReader, Fault> {
        let mode = header.record_type.mode();
        self.plan.fits(mode)?;
        let gates = Gates::of(self.plan);
        let stream = RecordStream::new(header.record_type, self.plan.policy);
        let mut picker = Picker::new(mode);
        picker.start(out)?;
        let group = self.group;
        Ok(PickReader {
            stream,
            gates,
            group,
            picker,
        })
    }

    ghost law = { λ job. picking-suits job.group (plan_view job.plan.now) };
}
