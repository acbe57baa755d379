// Places of photons after known markers: the test of the lines of `scan_image`.
use crate::given::{Given, events_of, halves, holds, plan_of, same};
use crate::rows::PLACES;
use scan_image::Lines;
use std::alloc::Global;
use std::test::Fail;
use tally_base::{EventKind, ImageSet};

/// The place of a photon after these markers.
fn place(set: &ImageSet, markers: &[Given], photon: u64) -> Result<Option<(u32, u32)>, Fail> {
    if markers.len() > 100 {
        return Err(Fail::new("a row has too many markers"));
    }
    let mut lines = Lines::new(set);
    let mut latest = 0;
    for &(time, kind, _) in markers {
        let EventKind::Marker { bits } = kind else {
            return Err(Fail::new("a photon among the markers"));
        };
        if time < latest {
            return Err(Fail::new("the times of a row are out of order"));
        }
        latest = time;
        lines.marker(bits, time);
    }
    if photon < latest {
        return Err(Fail::new("the photon of a row comes before its markers"));
    }
    Ok(lines.place(photon))
}

/// The column and the row of a place.
fn told(alloc: Global, place: Option<(u32, u32)>) -> Result<String, Fail> {
    match place {
        Some((x, y)) => Ok(format!(in alloc; "{x},{y}")?),
        None => Ok(String::from_str(alloc, "-")?),
    }
}

#[test]
fn each_photon_has_its_place(rt: HostRuntime) -> Result<(), Fail> {
    let alloc = rt.alloc();
    for line in PLACES.lines() {
        let (name, rest) = halves(line);
        let (text, rest) = halves(rest);
        let (markers, photons) = halves(rest);
        holds(photons.contains('='), name)?;
        let plan = plan_of(alloc, text)?;
        let markers = events_of(alloc, markers)?;
        for photon in photons.split_whitespace() {
            let (Some(set), Some((time, wanted))) = (plan.images.first(), photon.split_once('='))
            else {
                return Err(Fail::new(name));
            };
            let found = place(set, &markers, time.parse::<u64>()?)?;
            same(name, &told(alloc, found)?, wanted)?;
        }
    }
    Ok(())
}
