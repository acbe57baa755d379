// The head of a report.
ghost use Rattle.std.specs.Prelude.{◌≡◌};
ghost use Rattle.table_out.specs.Report.{head_text};

use arrayvec::ArrayVec;
use list_out::{put_announced, put_bits, put_count, put_line, put_time};
use ptu_definitions::Summary;
use tally_base::Header;

/// The twelve lines that stand before the tables.
#[tactic(auto, unfolding(crate::specs::Report::head_text))]
pub(crate) fn report_head(header: &Header, summary: &Summary) -> ArrayVec<u8, 512>
    ensures { result.items ≡ head_text header.now summary.now }
{
    let mut text = ArrayVec::new();
    put_line(&mut text, b"type", header.record_type.name().as_bytes());
    put_announced(&mut text, header.count);
    put_bits(&mut text, b"global", header.global);
    put_bits(&mut text, b"resolution", header.resolution);
    put_count(&mut text, b"records", summary.records);
    put_count(&mut text, b"photons", summary.photons);
    put_count(&mut text, b"markers", summary.markers);
    put_count(&mut text, b"wraps", summary.wraps);
    put_count(&mut text, b"reserved", summary.reserved);
    put_count(&mut text, b"late", summary.late);
    put_time(&mut text, b"first", summary.first);
    put_time(&mut text, b"last", summary.last);
    text
}
