ghost use Rattle.std.specs.Prelude.{◌≡◌, option_map};
ghost use Rattle.source_maps.specs.Places.{line_in, long_in, name_in};

/// What in a source became lines and names of the text that was made of it. Where both lists are empty, the text is its own source.
#[derive(Clone, Copy)]
pub struct SourceMap<'a> {
    /// For each line of the text the line of the source that it comes from, counted from 1.
    pub lines: &'a [u32],
    /// Names of the source, each with the name that it became.
    pub names: &'a [(String, String)],
}

impl<'a> SourceMap<'a> {
    /// The line of the source for a line of the text, both counted from 1. One that the map doesn't have stays.
    pub fn line(self, line: u32) -> u32
        ensures { result ≡ line_in self.entry.lines.now line }
    {
        match line.checked_sub(1) {
            Some(k) => self.lines.get(k as usize).copied().unwrap_or(line),
            None => line,
        }
    }

    /// The name of the source for a name of the text. One that the map doesn't have stays.
    pub fn name<'n>(self, name: &'n [u8]) -> &'n [u8]
    where
        'a: 'n,
        ensures { result.now ≡ name_in self.entry.names.now name.now }
    {
        match self.long_name(name) {
            Some(long) => long.as_bytes(),
            None => name,
        }
    }

    /// The name of the source that became this one, if there is one.
    #[tactic(auto, using(crate::proofs::Pairs::pair_step, crate::proofs::Pairs::pairs_end))]
    pub fn long_name(self, name: &[u8]) -> Option<&'a str>
        ensures { option_map (λ long. long.now) result ≡ long_in self.entry.names.now name.now }
    {
        for (long, short) in self.names {
            if short.as_bytes() == name {
                return Some(long.as_str());
            }
        }
        None
    }
}
