//! The draws of a seed.
ghost use Rattle.std.specs.Prelude.{◌≡◌, ◌%◌, ◌<◌};
ghost use Rattle.sz_feed.specs.Feed.{next};

/// What was drawn last; before the first draw it is the seed modulo 65,536.
pub struct Draws {
    last: u32,

    ghost within: { last < 65537 },
}

impl Drop for Draws {
    fn drop(self) {
        let Draws { last: _ } = self;
    }
}

impl Draws {
    /// The draws of the seed, none of them made.
    pub fn new(seed: u64) -> Draws
        ensures value { result.last ≡ seed % 65536 }
    {
        Draws {
            last: (seed % 65_536) as u32,
        }
    }

    /// The next draw, below 65,537.
    pub fn draw(&mut self) -> u32
        ensures value { result ≡ next self.old.last }
        ensures kept { self.new.last ≡ result }
    {
        self.last = (75 * self.last + 74) % 65_537;
        self.last
    }
}
