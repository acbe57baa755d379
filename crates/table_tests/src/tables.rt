// What tables of each kind count of known events, where memory is had.
use crate::given::{Given, close, events_of, give, halves, plan_of, same};
use crate::rows::ROWS;
use coincidence::{Coincidence, StartStop};
use count_trace::Trace;
use flim_cube::FlimCube;
use fold_count::Fold;
use plan_text::Plan;
use scan_image::Image;
use std::alloc::Global;
use std::test::Fail;
use tally_base::{
    CoincidenceSet, CorrelationSet, CubeSet, FoldSet, HistSet, ImageSet, StartStopSet, TraceSet,
};
use tau_cascade::Cascade;
use tcspc_hist::Hist;

/// The cells of a table, and then its counts of photons that are in none.
type Counts = Result<Vec<u128>, Fail>;

fn histogram(alloc: Global, set: HistSet, events: &[Given]) -> Counts {
    let mut table = Hist::open(alloc, set)?;
    give(&mut table, events)?;
    close(&mut table);
    let mut counts = Vec::new(alloc);
    for at in 0..table.set().bins {
        counts.push(u128::from(table.cell(at)))?;
    }
    counts.push(u128::from(table.over()))?;
    Ok(counts)
}

fn trace(alloc: Global, set: TraceSet, events: &[Given]) -> Counts {
    let mut table = Trace::open(alloc, set)?;
    give(&mut table, events)?;
    close(&mut table);
    let mut counts = Vec::new(alloc);
    for at in 0..table.set().bins {
        counts.push(u128::from(table.cell(at)))?;
    }
    counts.push(u128::from(table.before()))?;
    counts.push(u128::from(table.beyond()))?;
    Ok(counts)
}

fn startstop(alloc: Global, set: StartStopSet, events: &[Given]) -> Counts {
    let mut table = StartStop::open(alloc, set)?;
    give(&mut table, events)?;
    close(&mut table);
    let mut counts = Vec::new(alloc);
    for at in 0..table.set().bins {
        counts.push(u128::from(table.cell(at)))?;
    }
    counts.push(u128::from(table.over()))?;
    Ok(counts)
}

fn coincidence(alloc: Global, set: CoincidenceSet, events: &[Given]) -> Counts {
    let mut table = Coincidence::open(alloc, set)?;
    give(&mut table, events)?;
    close(&mut table);
    let mut counts = Vec::new(alloc);
    for at in 0..table.cells() {
        counts.push(table.cell(at))?;
    }
    Ok(counts)
}

fn image(alloc: Global, set: ImageSet, events: &[Given]) -> Counts {
    let mut table = Image::open(alloc, set)?;
    give(&mut table, events)?;
    close(&mut table);
    let mut counts = Vec::new(alloc);
    for y in 0..table.set().height {
        for x in 0..table.set().width {
            counts.push(u128::from(table.cell(x, y)))?;
        }
    }
    counts.push(u128::from(table.outside()))?;
    Ok(counts)
}

/// Level by level, the cells of the lags from 1 on. A lag that the level has not counts 0.
fn correlation(alloc: Global, set: CorrelationSet, events: &[Given]) -> Counts {
    let mut table = Cascade::open(alloc, set)?;
    give(&mut table, events)?;
    close(&mut table);
    let mut counts = Vec::new(alloc);
    for level in 0..table.set().levels {
        for lag in 1..=table.set().lags {
            let has = table.first_lag(level) <= lag;
            counts.push(if has { table.cell(level, lag) } else { 0 })?;
        }
    }
    Ok(counts)
}

fn cube(alloc: Global, set: CubeSet, events: &[Given]) -> Counts {
    let mut table = FlimCube::open(alloc, set)?;
    give(&mut table, events)?;
    close(&mut table);
    let mut counts = Vec::new(alloc);
    for y in 0..table.set().image.height {
        for x in 0..table.set().image.width {
            for b in 0..table.set().dbins {
                counts.push(u128::from(table.cell(x, y, b)))?;
            }
        }
    }
    counts.push(u128::from(table.outside()))?;
    counts.push(u128::from(table.over()))?;
    Ok(counts)
}

fn fold(alloc: Global, set: &FoldSet, events: &[Given]) -> Counts {
    let mut table = Fold::open(alloc, set.copied())?;
    give(&mut table, events)?;
    close(&mut table);
    let mut counts = Vec::new(alloc);
    for groups in 0..table.sets() {
        counts.push(u128::from(table.cell(groups)))?;
    }
    Ok(counts)
}

/// What the table of a plan counts of events.
fn counts_of(alloc: Global, plan: &Plan, events: &[Given]) -> Counts {
    if let Some(set) = plan.histograms.first() {
        histogram(alloc, *set, events)
    } else if let Some(set) = plan.traces.first() {
        trace(alloc, *set, events)
    } else if let Some(set) = plan.startstops.first() {
        startstop(alloc, *set, events)
    } else if let Some(set) = plan.coincidences.first() {
        coincidence(alloc, *set, events)
    } else {
        other_counts_of(alloc, plan, events)
    }
}

/// What the image, the correlation, the cube or the fold of a plan counts of events.
fn other_counts_of(alloc: Global, plan: &Plan, events: &[Given]) -> Counts {
    if let Some(set) = plan.images.first() {
        image(alloc, *set, events)
    } else if let Some(set) = plan.correlations.first() {
        correlation(alloc, *set, events)
    } else if let Some(set) = plan.cubes.first() {
        cube(alloc, *set, events)
    } else if let Some(set) = plan.folds.first() {
        fold(alloc, set, events)
    } else {
        Err(Fail::new("the plan of a row has no table"))
    }
}

/// How many counts there are, and those that aren't 0, each with its place.
fn told(alloc: Global, counts: &[u128]) -> Result<String, Fail> {
    let mut text = format!(in alloc; "{}:", counts.len())?;
    for (place, count) in counts.iter().enumerate() {
        if *count > 0 {
            text.push_str(&format!(in alloc; " {place}={count}")?)?;
        }
    }
    Ok(text)
}

#[test]
fn tables_count_known_events(rt: HostRuntime) -> Result<(), Fail> {
    let alloc = rt.alloc();
    for line in ROWS.lines() {
        let (name, rest) = halves(line);
        let (text, rest) = halves(rest);
        let (events, wanted) = halves(rest);
        let plan = plan_of(alloc, text)?;
        let counts = counts_of(alloc, &plan, &events_of(alloc, events)?)?;
        same(name, &told(alloc, &counts)?, wanted)?;
    }
    Ok(())
}

/// The index and the two weights of the open bin of each level.
fn open_bins(alloc: Global, table: &Cascade) -> Result<String, Fail> {
    let mut text = String::new(alloc);
    for level in 0..table.set().levels {
        if let Some(bin) = table.open_bin(level) {
            let bin = format!(in alloc; "{} {} {};", bin.index, bin.a, bin.b)?;
            text.push_str(&bin)?;
        }
    }
    Ok(text)
}

#[test]
fn photons_wait_in_the_open_bins(rt: HostRuntime) -> Result<(), Fail> {
    let alloc = rt.alloc();
    let plan = plan_of(
        alloc,
        "correlation = [{ first = 1, second = 1, lags = 2, levels = 3 }]",
    )?;
    let Some(set) = plan.correlations.first() else {
        return Err(Fail::new("no correlation"));
    };
    let mut table = Cascade::open(alloc, *set)?;
    give(&mut table, &events_of(alloc, "0 1 2 3 8")?)?;
    same("open", &open_bins(alloc, &table)?, "8 1 1;1 2 2;0 2 2;")?;
    close(&mut table);
    same("closed", &open_bins(alloc, &table)?, "")
}
