//! Files by hand.
ghost use Rattle.console.specs.Files.{IsAnyReading};

use console::{Detail, LimitedFiles, TrialFault};
use std::alloc::Global;
use text_io::RunFault;

/// A file of this path that has this text. There is no other file.
#[derive(Clone, Copy)]
pub struct OneFile<'a> {
    pub path: &'a str,
    pub text: &'a [u8],
}

impl<'a> LimitedFiles for OneFile<'a> {
    ghost gave_first = { λ _ path _ bytes. IsAnyReading path bytes };

    fn first_bytes_in(&self, alloc: Global, path: &str, most: u64) -> Result<Vec<u8>, TrialFault> {
        if path != self.path {
            return Err(TrialFault::File(Detail::none()));
        }
        let text = match self.text.get(..most as usize) {
            Some(first) => first,
            None => self.text,
        };
        match text.to_vec(alloc) {
            Ok(bytes) => Ok(bytes),
            Err(_) => Err(TrialFault::Run(RunFault::Memory)),
        }
    }
}
