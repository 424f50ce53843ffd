//! Files by hand.
ghost use Rattle.console.specs.Files.{IsAnyReading};

use console::{Detail, TrialFault, WholeFiles};
use std::alloc::Global;
use text_io::RunFault;

/// These files, by their paths. There is no other.
#[derive(Clone, Copy)]
pub struct GivenFiles {
    pub files: &'static [(&'static str, &'static str)],
}

impl WholeFiles for GivenFiles {
    ghost gave = { λ _ path bytes. IsAnyReading path bytes };

    fn bytes_in(&self, alloc: Global, path: &str) -> Result<Vec<u8>, TrialFault> {
        for (name, text) in self.files {
            if *name == path {
                return match text.as_bytes().to_vec(alloc) {
                    Ok(bytes) => Ok(bytes),
                    Err(_) => Err(TrialFault::Run(RunFault::Memory)),
                };
            }
        }
        Err(TrialFault::File(Detail::none()))
    }
}
