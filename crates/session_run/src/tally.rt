ghost use Rattle.std.specs.Prelude.{◌≡◌, ◌<◌, ◌^◌};
ghost use Rattle.session_run.specs.Tallies.{no_tally, add};

use es2_replay::Shot;

/// How many draws, clears and builds of smaller levels a driver made.
#[derive(Clone, Copy, Debug, PartialEq, Eq)]
pub struct Tally {
    /// The draws (OpenGL ES 2.0 section 2.8).
    pub draws: u64,
    /// The clears (section 4.2.3).
    pub clears: u64,
    /// The builds of a texture's smaller levels (section 3.7.11).
    pub mipmaps: u64,
}

impl Tally {
    /// Nothing was made.
    pub fn none() -> Self
        ensures { result ≡ no_tally }
    {
        Tally {
            draws: 0,
            clears: 0,
            mipmaps: 0,
        }
    }

    /// Counts what one command made, if it made anything.
    pub fn add(&mut self, made: Option<Shot>)
        requires draws { self.old.draws < 2 ^ 63 }
        requires clears { self.old.clears < 2 ^ 63 }
        requires mipmaps { self.old.mipmaps < 2 ^ 63 }
        ensures { self.new ≡ add self.old made }
    {
        match made {
            Some(Shot::Draw) => self.draws += 1,
            Some(Shot::Clear) => self.clears += 1,
            Some(Shot::Mipmap) => self.mipmaps += 1,
            None => {}
        }
    }
}
