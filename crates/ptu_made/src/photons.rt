// The generator of the made file: photons of two inputs, each a few ticks after the one before.
ghost use Rattle.std.specs.Prelude.{◌≡◌, ◌+◌, ◌*◌, ◌%◌, ◌^◌, ◌<◌, ◌≤◌, ◌++◌, [], MatchOption, OnSome};
ghost use Rattle.ptu_made.specs.{Generator.{photon_limit, next_state, made_words}, Photon.words_of_photon};

use crate::photon_words::PhotonWords;

const MULTIPLIER: u64 = 6_364_136_223_846_793_005;

const INCREMENT: u64 = 1_442_695_040_888_963_407;

/// The ticks of one wrap.
const UNIT: u64 = 33_554_432;

/// The word of one wrap.
pub(crate) const WRAP: u32 = 0xFE00_0001;

/// The photons of a seed that are still to come.
#[derive(Clone, Copy)]
pub(crate) struct Photons {
    /// The state of the generator at the last photon, or the seed.
    state: u64,
    /// The time of the last photon in ticks, or 0.
    time: u64,
    pub(crate) left: u64,
    ghost in_time: { time + 512 * left ≤ 512 * photon_limit },
}

fn state_behind(state: u64) -> u64
    ensures { result ≡ next_state state }
{
    state.wrapping_mul(MULTIPLIER).wrapping_add(INCREMENT)
}

impl Photons {
    ghost use Rattle.ptu_made.specs.Unread.{words_left};

    #[tactic(auto, unfolding(crate::specs::Generator::made_words))]
    pub(crate) fn new(seed: u64, count: u64) -> Photons
        requires { count ≤ photon_limit }
        ensures { words_left result ≡ made_words seed count }
    {
        Photons {
            state: seed,
            time: 0,
            left: count,
        }
    }

    /// The next photon, or None where none is left.
    pub(crate) fn next(&mut self) -> Option<PhotonWords>
        ensures words { MatchOption result
            ((words_left self.old ≡ []) × (self.new ≡ self.old))
            (λ photon. words_left self.old ≡ words_of_photon photon ++ words_left self.new) }
        ensures fewer { OnSome result (self.new.left < self.old.left) }
    {
        if self.left == 0 {
            return None;
        }
        let state = state_behind(self.state);
        let drawn = state >> 33;
        let time = self.time + drawn % 512;
        let channel = drawn / 512 % 2;
        let photon = PhotonWords {
            wraps: self.time / UNIT < time / UNIT,
            word: (channel * UNIT + time % UNIT) as u32,
        };
        *self = Photons {
            state,
            time,
            left: self.left - 1,
        };
        Some(photon)
    }
}
