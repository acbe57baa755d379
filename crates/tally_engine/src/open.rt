// The tables of a plan are opened.
ghost use Rattle.std.specs.Prelude.{◌≡◌, ◌<◌, ◌++◌, length, map, IfOk, IfErr, OnOk};
ghost use Rattle.tally_base.specs.Settings.{PartSettings, hist_view, trace_view, startstop_view, coincidence_view, image_view, correlation_view, cube_view, fold_view, PartSettings.HistSettings};
ghost use Rattle.tally_base.specs.Settings.PartSettings.{TraceSettings, StartStopSettings, CoincidenceSettings, ImageSettings, CorrelationSettings, CubeSettings, FoldSettings};
ghost use Rattle.{plan_text.specs.{Plan.parts_of, ReadPlan.plan_view}, tally_engine.specs.Parts.{settings_in, IsOpened, AllOpened}};

use crate::part::Part;
use coincidence::{Coincidence, StartStop};
use count_trace::Trace;
use flim_cube::FlimCube;
use fold_count::Fold;
use plan_text::{Plan, each_list};
use scan_image::Image;
use std::alloc::{AllocError, Global};
use tally_base::{
    CoincidenceSet, CorrelationSet, CubeSet, FoldSet, HistSet, ImageSet, StartStopSet, TraceSet,
};
use tau_cascade::Cascade;
use tcspc_hist::Hist;

/// Settings of one kind, which open a table of that kind.
trait OpensPart {
    /// The settings, as those of a table of any kind.
    ghost settings: { Self → PartSettings };

    /// A table of no events.
    fn open(&self, alloc: Global) -> Result<Part, AllocError>
        ensures { IfOk result (IsOpened (settings self.now)) };
}

impl OpensPart for HistSet {
    ghost settings = { λ set. HistSettings (hist_view set) };

    fn open(&self, alloc: Global) -> Result<Part, AllocError> {
        Ok(Part::Hist(Hist::open(alloc, *self)?))
    }
}

impl OpensPart for TraceSet {
    ghost settings = { λ set. TraceSettings (trace_view set) };

    fn open(&self, alloc: Global) -> Result<Part, AllocError> {
        Ok(Part::Trace(Trace::open(alloc, *self)?))
    }
}

impl OpensPart for StartStopSet {
    ghost settings = { λ set. StartStopSettings (startstop_view set) };

    fn open(&self, alloc: Global) -> Result<Part, AllocError> {
        Ok(Part::StartStop(StartStop::open(alloc, *self)?))
    }
}

impl OpensPart for CoincidenceSet {
    ghost settings = { λ set. CoincidenceSettings (coincidence_view set) };

    fn open(&self, alloc: Global) -> Result<Part, AllocError> {
        Ok(Part::Coincidence(Coincidence::open(alloc, *self)?))
    }
}

impl OpensPart for ImageSet {
    ghost settings = { λ set. ImageSettings (image_view set) };

    fn open(&self, alloc: Global) -> Result<Part, AllocError> {
        Ok(Part::Image(Image::open(alloc, *self)?))
    }
}

impl OpensPart for CorrelationSet {
    ghost settings = { λ set. CorrelationSettings (correlation_view set) };

    fn open(&self, alloc: Global) -> Result<Part, AllocError> {
        Ok(Part::Correlation(Cascade::open(alloc, *self)?))
    }
}

impl OpensPart for CubeSet {
    ghost settings = { λ set. CubeSettings (cube_view set) };

    fn open(&self, alloc: Global) -> Result<Part, AllocError> {
        Ok(Part::Cube(FlimCube::open(alloc, *self)?))
    }
}

impl OpensPart for FoldSet {
    ghost settings = { λ set. FoldSettings (fold_view set) };

    fn open(&self, alloc: Global) -> Result<Part, AllocError> {
        Ok(Part::Fold(Fold::open(alloc, self.copied())?))
    }
}

/// Puts tables of one kind after the tables that are there.
fn open_list<S: OpensPart>(
    alloc: Global,
    sets: &[S],
    parts: &mut Vec<Part>,
) -> Result<(), AllocError>
    ensures settings { OnOk result (settings_in parts.new.items ≡ settings_in parts.old.items
        ++ map S.settings sets.now) }
    ensures opened { AllOpened parts.old.items → OnOk result (AllOpened parts.new.items) }
    ensures wanting { IfErr result (λ error. 0 < length sets.now) }
{
    for set in sets {
        let part = set.open(alloc)?;
        parts.push(part)?;
    }
    Ok(())
}

/// The tables of a plan, in the order of the report, which were given nothing. Memory runs out only for a table.
#[tactic(auto, using(crate::proofs::OneByOne::behind_all))]
pub(crate) fn open_all(alloc: Global, plan: &Plan) -> Result<Vec<Part>, AllocError>
    ensures settings { IfOk result (λ parts.
        settings_in parts.items ≡ parts_of (plan_view plan.now)) }
    ensures opened { IfOk result (λ parts. AllOpened parts.items) }
    ensures wanting { IfErr result (λ error. 0 < length (parts_of (plan_view plan.now))) }
{
    let mut parts = Vec::new(alloc);
    each_list!(plan, sets => open_list(alloc, sets, &mut parts));
    Ok(parts)
}
