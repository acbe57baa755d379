// The records of a file, counted while it is read.

use crate::counts::write_counts;
use bench_io::Sink;
use command_work::{Job, Reader};
use record_layout::Counter;
use tally_base::{Fault, Header};

/// Counts records by kind, and writes the counts at the end.
#[derive(Drop)]
pub struct CountReader {
    header: Header,
    counter: Counter,
}

impl Reader for CountReader {
    ghost use Rattle.record_layout.specs.Counting.{room};
    ghost use Rattle.file_work.{specs.FileOutcomes.counts, specs.CountPieces.CountsBytes, specs.CountLaws.{counts-law, counts-clear}};

    ghost tells = { λ r. counts r.header };

    ghost stands = { λ r bytes. CountsBytes r.counter r.header.record_type bytes };

    ghost room = { λ r. room r.counter };

    fn piece<O: Sink>(&mut self, piece: &[u8], _out: &mut O) -> Result<(), Fault> {
        self.counter.feed(piece)
    }

    fn end<O: Sink>(self, out: &mut O) -> Result<(), Fault> {
        let counts = self.counter.finish()?;
        write_counts(&self.header, &counts, out)
    }

    ghost law = { λ r. counts-law r.header };

    ghost clear = { λ r bytes h. counts-clear bytes h.few };
}

/// Counts the records of a file by kind.
#[derive(Clone, Copy)]
pub struct Counting;

impl Job for Counting {
    ghost use Rattle.command_work.{specs.Behaviours.AtEnd, specs.Works.WantsNone};
    ghost use Rattle.file_work.{specs.FileOutcomes.{counting, counts}, specs.CountLaws.counting-suits};

    type Reader = CountReader;

    ghost work = { λ job. counting };

    ghost writing = { λ job. AtEnd };

    ghost wanting = { λ job. WantsNone };

    ghost tells = { λ job header. counts header };

    ghost wants = { λ job header. ⊥ };

    fn open<O: Sink>(&self, header: &Header, _out: &mut O) -> Result<CountReader, Fault> {
        let counter = Counter::new(header.record_type);
        Ok(CountReader {
            header: *header,
            counter,
        })
    }

    ghost law = { λ job. counting-suits };
}
