// Writes photons one after another.
ghost use Rattle.std.specs.Prelude.{◌≡◌, ◌≤◌, ◌↔◌, ◌++◌, ◌∷◌, [], List, Err, true, false, OnOk, OnErr, IfErr};
ghost use Rattle.{tally_base.specs.{declared.{event.Event.Event, fault.Fault.TheVariants.{PickTime, WriteFault}}, Events.is_photon}, bench_io.specs.Sinks.{Wrote, WroteShort}};
ghost use Rattle.{ptu_definitions.specs.Layouts.KindFits, minimal_file.specs.ShortFiles.{bytes_in, short_header}, record_write.specs.{Picked.is_too_late, Writing.{PutsOrCuts, WritesOrCuts}}};
ghost use Rattle.record_write.specs.Writing.{PickCause};

use crate::words::{is_too_late, photon_word, put_photon};
use bench_io::{OutBuffer, Sink, write_all};
use minimal_file::short_header;
use tally_base::{Event, EventKind, Failed, Fault, Mode};

/// Writes a file of photons: first its header, and then the photons in order of time. A T2 file has the
/// record type HydraHarp2T2 and a T3 file HydraHarp2T3. Before a photon come the wraps that lead to its
/// time. `start` is called first and once, and nothing after a refused call. It takes no memory, and
/// keeps no list.
#[derive(Drop)]
pub struct Picker {
    mode: Mode,
    /// The time of the last photon, or 0 where there is none.
    last: u64,
    /// Whether `start` was called.
    begun: bool,
    /// Whether it answered Ok, and no call was refused.
    going: bool,
}

impl Picker {
    ghost use Rattle.record_write.specs.Picker.{mode_of, was_begun, HasPicked, Starts, IsNext, OnWordsOf, Picks, Closes, TakesPhoton};

    /// A picker for a file of this mode, which has picked no photon.
    pub fn new(mode: Mode) -> Picker
        ensures mode { mode_of result ≡ mode }
        ensures none { HasPicked result [] }
        ensures fresh { was_begun result ≡ false }
    {
        Picker {
            mode,
            last: 0,
            begun: false,
            going: false,
        }
    }

    /// The mode of its file.
    pub fn mode(&self) -> Mode
        ensures { result ≡ mode_of self.now }
    {
        self.mode
    }

    /// Writes the header of the file, 112 bytes, which come before all photons.
    pub fn start<O: Sink>(&mut self, out: &mut O) -> Result<(), Fault>
        requires first { was_begun self.old ≡ false }
        ensures all { OnOk result (Wrote (O.state out.old) (O.state out.new) (short_header (mode_of self.old))) }
        ensures short { OnErr result (WroteShort (O.state out.old) (O.state out.new) (short_header (mode_of self.old))) }
        ensures fault { IfErr result (λ fault. fault ≡ WriteFault) }
        ensures starts { Starts self.old self.new result }
    {
        self.begun = true;
        self.going = write_all(out, &short_header(self.mode)).is_ok();
        if self.going {
            Ok(())
        } else {
            Err(Fault::WriteFault)
        }
    }

    /// Puts a photon after those before it into a block, which passes it on to the sink.
    ///
    /// Its input must be at most 64 in T2 and 63 in T3, its dtime 0 in T2 and at most 32,767 in T3, and its
    /// time no less than that of the photon before it. Refuses with `PickTime` one whose wraps would add up to
    /// more than 2^62, and then puts nothing. Where a write fails, a front of the bytes that are held and of
    /// this photon's words was written, and the block holds none.
    pub fn put<O: Sink>(
        &mut self,
        e: &Event,
        block: &mut OutBuffer,
        out: &mut O,
    ) -> Result<(), Fault>
        requires next { IsNext self.old e.now }
        ensures picks { OnOk result (Picks self.old self.new e.now) }
        ensures puts { OnWordsOf self.old e.now (λ words. PutsOrCuts (O.state out.old)
            (O.state out.new) block.old block.new words result) }
        ensures late { (result ≡ Err (PickTime e.now.place)) ↔ (is_too_late (mode_of self.old) e.now.time ≡ true) }
        ensures untouched { result ≡ Err (PickTime e.now.place) → (out.new ≡ out.old) × (block.new ≡ block.old) }
        ensures cause { PickCause e.now.place (O.state out.old) (O.state out.new) result }
        ensures closes { OnErr result (Closes self.old self.new) }
    {
        if is_too_late(self.mode, e.time) {
            self.going = false;
            return Err(Fault::PickTime { place: e.place });
        }
        match e.kind {
            EventKind::Photon { input, dtime } => {
                let word = photon_word(self.mode, input, dtime, e.time);
                if put_photon(self.mode, self.last, e.time, word, block, out).is_err() {
                    self.going = false;
                    return Err(Fault::WriteFault);
                }
                self.last = e.time;
                Ok(())
            }
            EventKind::Marker { .. } => unreachable!(),
        }
    }

    /// Writes a photon after those before it, as `put` does, but at once.
    pub fn photon<O: Sink>(&mut self, e: &Event, out: &mut O) -> Result<(), Fault>
        requires next { IsNext self.old e.now }
        ensures takes { TakesPhoton self.old self.new e.now (O.state out.old) (O.state out.new) result }
        ensures writes { OnWordsOf self.old e.now (λ words. WritesOrCuts (O.state out.old) (O.state out.new) words result) }
        ensures untouched { result ≡ Err (PickTime e.now.place) → out.new ≡ out.old }
    {
        let last = self.last;
        let mut block = OutBuffer::new();
        match self.put(e, &mut block, out) {
            Ok(()) => match block.flush(out) {
                Ok(()) => Ok(()),
                Err(Failed) => {
                    self.last = last;
                    self.going = false;
                    Err(Fault::WriteFault)
                }
            },
            Err(fault) => Err(fault),
        }
    }
}
