// A plan.
ghost use Rattle.std.specs.Prelude.{◌<◌, ◌≤◌};

use crate::kind::suit_tables;
use arrayvec::ArrayVec;
use tally_base::{
    CoincidenceSet, CorrelationSet, CubeSet, Fault, FoldSet, Group, HistSet, ImageSet, Mode,
    Policy, ShiftSet, StartStopSet, TraceSet,
};

/// What a run refuses, and what it counts.
#[derive(Drop)]
pub struct Plan {
    /// Which records are refused.
    pub policy: Policy,
    /// The period of the dtimes in ticks, 1 to 32,768, modulo which those of an input with a shift are
    /// taken.
    pub period: u32,
    /// The shifts of dtimes. `read_plan` gives them by rising inputs, each less than the period.
    pub shifts: ArrayVec<ShiftSet, 65>,
    /// The groups of photons. The first is the group number 1.
    pub groups: ArrayVec<Group, 64>,
    /// The histograms of dtimes. Each is of one of the groups.
    pub histograms: ArrayVec<HistSet, 32>,
    /// The traces over the time of the file. Each is of one of the groups.
    pub traces: ArrayVec<TraceSet, 32>,
    /// The tables of the times between neighbours among the photons of two groups.
    pub startstops: ArrayVec<StartStopSet, 16>,
    /// The tables of the pairs of photons of two groups by their difference in time.
    pub coincidences: ArrayVec<CoincidenceSet, 16>,
    /// The images of a scan. Each is of one of the groups.
    pub images: ArrayVec<ImageSet, 8>,
    /// The correlations of two groups.
    pub correlations: ArrayVec<CorrelationSet, 16>,
    /// The images of a scan with a histogram of dtimes in each pixel. Each is of one of the groups.
    pub cubes: ArrayVec<CubeSet, 2>,
    /// The folds: which of up to six groups have a photon in the window that begins at a photon.
    pub folds: ArrayVec<FoldSet, 8>,
    pub ghost few_kept_back: { policy.settle ≤ 64 },
    pub ghost some_period: { (0 < period) × (period ≤ 32768) },
}

/// Evaluates a result with the settings of each kind of table of a plan, in the order of the report, and
/// returns the first refusal, as `each_list!(plan, sets => suit_tables(sets, mode))`.
#[macro_export]
macro_rules! each_list {
    ($plan:expr, $sets:ident => $result:expr) => {
        $crate::each_list!($plan, $sets => $result;
            histograms traces startstops coincidences images correlations cubes folds)
    };
    ($plan:expr, $sets:ident => $result:expr; $($list:ident)*) => {
        $({
            let $sets = $plan.$list.as_slice();
            $result?;
        })*
    };
}

impl Plan {
    ghost use Rattle.std.specs.Prelude.{◌≡◌};
    ghost use Rattle.plan_text.{specs.Fits.parts_fit, specs.Plan.parts_of, specs.ReadPlan.plan_view};

    /// Goes through the tables of each kind, in the order of the report.
    #[tactic(auto, using(crate::proofs::Misfits::parts_fit_after))]
    pub(crate) fn tables_suit(&self, mode: Mode) -> Result<(), Fault>
        ensures { result ≡ parts_fit mode (parts_of (plan_view self.now)) }
    {
        each_list!(self, sets => suit_tables(sets, mode));
        Ok(())
    }
}
