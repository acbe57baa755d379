// The commands `count` and `events`.
ghost use Rattle.{command_work.specs.Behaviours.{AtEnd, AsItReads}, file_work.specs.FileOutcomes.{counting, events_so_far, listing_all}};

use crate::counting::Counting;
use crate::events::Listing;
use bench_io::{Inputs, Sink};
use command_work::{FileWork, read_file};
use tally_base::Fault;

impl FileWork for Counting {
    ghost work = { counting };

    ghost writing = { AtEnd };

    fn read<I: Inputs, O: Sink>(&self, inputs: &mut I, out: &mut O) -> Result<(), Fault> {
        read_file(self, inputs, out)
    }
}

impl FileWork for Listing {
    ghost work = { listing_all };

    ghost writing = { AsItReads events_so_far };

    fn read<I: Inputs, O: Sink>(&self, inputs: &mut I, out: &mut O) -> Result<(), Fault> {
        read_file(self, inputs, out)
    }
}
