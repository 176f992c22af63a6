//! A part of a disk.
ghost use Rattle.std.specs.Prelude.{◌≡◌};
ghost use Rattle.sz_disk.specs.Crashes.{covers, is_in_some};

/// So many bytes from a place on.
#[derive(Clone, Copy, Debug, PartialEq, Eq)]
pub struct Span {
    /// The place of the first byte, counted from 0.
    pub at: usize,
    /// How many bytes.
    pub count: usize,
}

impl Span {
    /// Whether a place lies in it.
    pub fn covers(&self, place: usize) -> bool
        ensures { result ≡ covers place self.now }
    {
        self.at <= place && place - self.at < self.count
    }
}

/// Whether a place lies in one of the spans.
pub fn is_in_some(spans: &[Span], place: usize) -> bool
    ensures { result ≡ is_in_some spans.now place }
{
    spans.iter().any(|span| span.covers(place))
}
