use df_io::{ReadEnd, StdSource, read_all};
use std::alloc::Global;
use std::fs::File;
use view_jobs::{Files, LONGEST};
use view_output::Fault;

/// The files of the system.
#[derive(Clone, Copy)]
pub struct HostFiles<'a> {
    /// What opens them.
    pub rt: &'a HostRuntime,
}

impl Files for HostFiles<'_> {
    ghost use Rattle.std.specs.Prelude.{None};

    ghost known = { λ _ name. None };

    fn read(&self, alloc: Global, name: &str) -> Result<Vec<u8>, Fault> {
        let file = match File::open(self.rt, name) {
            Ok(file) => file,
            Err(_) => return Err(Fault::File),
        };
        match read_all(alloc, &mut StdSource::new(file), LONGEST) {
            Ok(text) => Ok(text),
            Err(ReadEnd::ReadFault) => Err(Fault::File),
            Err(ReadEnd::TooLong) => Err(Fault::TooLong),
            Err(ReadEnd::NoMemory) => Err(Fault::NoMemory),
        }
    }
}
