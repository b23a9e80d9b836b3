//! Names of edges.

ghost use Rattle.std.specs.Prelude.{◌≡◌, ◌<◌, length, set};

/// The names of the edges: for each the top of a list of brackets, and how long it is. The top of an empty list is 0.
#[derive(Drop)]
pub(crate) struct Names {
    pub(crate) tops: Vec<u32>,
    pub(crate) sizes: Vec<u32>,
}

impl Names {
    /// Gives the edge a name.
    pub(crate) fn put(&mut self, e: u32, top: u32, size: u32)
        requires tops { e < length self.old.tops.items }
        requires sizes { e < length self.old.sizes.items }
        ensures tops { self.new.tops.items ≡ set self.old.tops.items e top }
        ensures sizes { self.new.sizes.items ≡ set self.old.sizes.items e size }
    {
        self.tops[e as usize] = top;
        self.sizes[e as usize] = size;
    }
}
