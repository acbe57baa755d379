// The photons of a block, counted by their places.
ghost use Rattle.std.specs.Prelude.{◌≡◌, ◌+◌, ◌≤◌, true, length};
ghost use Rattle.{tally_base.specs.{Settings.image_view, Limits.record_limit, Columns.{count, gathered, events_in, IsSorted}, Tally.InOrder}, scan_image.specs.Lines.{image_of, line_start}};
ghost use Rattle.scan_image.specs.{Strips.start_of, Behind.{CountsMore, CountsOn, CountsOnStrip, IsOfSize, ComesFrom, RunsTo, HasRoom, Gained, LinesHaveRoom, LinesGoOn}};

use crate::lines::Lines;
use crate::pixels::Pixels;
use crate::strip::{Strip, Way};
use tally_base::{Block, TABLE_BLOCK};

/// Counts the photons of a block.
// Not inlined, so that its loops have the registers for themselves.
#[inline(never)]
pub fn count_block<P: Pixels>(
    pixels: &P,
    lines: &mut Lines,
    counts: &mut P::Counts,
    block: &Block<TABLE_BLOCK>,
)
    requires sorted { IsSorted block.now }
    requires room { HasRoom (P.fits pixels.now counts.old) (P.total counts.old) (length (gathered block.now)) }
    requires lines { LinesHaveRoom (image_view (P.image pixels.now)) lines.old (length (gathered block.now)) }
    requires in_order { InOrder true (line_start lines.old) (gathered block.now) }
    ensures follows { CountsMore (P.over pixels.now counts.old) (P.over pixels.now counts.new)
        (image_view (P.image pixels.now)) lines.old lines.new (events_in block.now) }
    ensures gained { Gained (P.fits pixels.now counts.new) (P.total counts.old)
        (P.total counts.new) (length (gathered block.now)) }
    ensures lines { LinesGoOn lines.old lines.new block.now }
{
    let len = block.len().min(TABLE_BLOCK);
    let mut from = 0;
    'runs: loop {
        let at = count_run(pixels, lines, counts, block, from);
        if at >= len {
            return;
        }
        lines.marker((block.code(at) % 256) as u8, block.time(at));
        from = at + 1;
    }
}

/// Counts the photons of a block from a place on, up to the next marker, and answers where that stands, or
/// the end of the block. They are all on one line, and which way it runs is tested once for them all.
#[inline(always)]
fn count_run<P: Pixels>(
    pixels: &P,
    lines: &Lines,
    counts: &mut P::Counts,
    block: &Block<TABLE_BLOCK>,
    from: usize,
) -> usize
    requires places { ComesFrom block.now from (line_start lines.now) }
    requires room { P.fits pixels.now counts.old × (P.total counts.old + count block.now ≤ record_limit + from) }
    requires of_set { image_of lines.now ≡ image_view (P.image pixels.now) }
    ensures follows { CountsOn (P.over pixels.now counts.old) (P.over pixels.now counts.new)
        (image_view (P.image pixels.now)) lines.now block.now from result }
    ensures runs { RunsTo block.now from result (P.fits pixels.now counts.new) (P.total counts.old) (P.total counts.new) }
{
    let strip = lines.strip();
    if strip.is_backwards() {
        count_on(pixels, &strip.facing(Way::Backwards), counts, block, from)
    } else {
        count_on(pixels, &strip.facing(Way::Forwards), counts, block, from)
    }
}

/// Counts the photons of a block on a line, from a place on, up to the next marker.
#[inline(always)]
fn count_on<P: Pixels>(
    pixels: &P,
    strip: &Strip,
    counts: &mut P::Counts,
    block: &Block<TABLE_BLOCK>,
    from: usize,
) -> usize
    requires places { ComesFrom block.now from (start_of strip.now) }
    requires room { P.fits pixels.now counts.old × (P.total counts.old + count block.now ≤ record_limit + from) }
    requires of_set { IsOfSize (P.image pixels.now) strip.now }
    ensures follows { CountsOnStrip (P.over pixels.now counts.old) (P.over pixels.now counts.new)
        (image_view (P.image pixels.now)) strip.now block.now from result }
    ensures runs { RunsTo block.now from result (P.fits pixels.now counts.new) (P.total counts.old) (P.total counts.new) }
{
    // Copies, so that no field is read again for each photon.
    let own = *pixels;
    let line = *strip;
    let len = block.len().min(TABLE_BLOCK);
    for at in from..len {
        if block.code(at) >= 256 {
            return at;
        }
        // No branch on the group, which is as good as random from photon to photon.
        let more = block.photons_in(at, own.image().group);
        let place = line.place(block.time(at));
        own.add(counts, place, block.dtime(at), more);
    }
    len
}
