ghost use Rattle.std.specs.Prelude.{◌≡◌, OnOk, IsErrOf};
ghost use Rattle.outside.specs.Counts.{no_failures, one_more_at};
ghost use Rattle.outside.specs.Logs.{Reads};
ghost use Rattle.outside.specs.StoreContents.{log_of_failures};

use crate::failures::FailedReads;
use crate::store::{ReadRefused, Store};
use crate::stream::read_prefix;
use std::alloc::Global;
use std::fs;
use std::marker::Model;
use std::rt::Files;

/// The files of the system. They aren't told.
#[derive(Drop)]
pub struct FileStore<R> {
    rt: R,
    failures: FailedReads,
}

impl<R> Model for FileStore<R> {
    ghost use Rattle.outside.specs.Counts.{Failures};

    ghost Value = { Failures };

    ghost view = { λ store. store.failures };
}

impl<R> FileStore<R> {
    /// A store that reads through this runtime.
    pub fn new(rt: R) -> FileStore<R>
        ensures { result ≡ no_failures }
    {
        FileStore {
            rt,
            failures: FailedReads::new(),
        }
    }
}

impl<R: Files> Store for FileStore<R> {
    ghost log = { log_of_failures };

    fn read(&mut self, alloc: Global, name: &str, limit: usize) -> Result<Vec<u8>, ReadRefused>
        // What each store promises.
        ensures reads { Reads result (log_of_failures self.old)
            (log_of_failures self.new) name.now limit }

        // What it leaves.
        ensures ok { OnOk result (self.new ≡ self.old) }
        ensures memory { IsErrOf result ReadRefused.Memory → self.new ≡ self.old }
        ensures failed { IsErrOf result ReadRefused.Failed
            → self.new ≡ one_more_at self.old name.now }
    {
        let Ok(kept_name) = String::from_str(alloc, name) else {
            return Err(ReadRefused::Memory);
        };
        let read = match fs::open(&self.rt, name) {
            Ok(file) => read_prefix(alloc, file, limit),
            Err(_) => Err(ReadRefused::Failed),
        };
        if let Err(ReadRefused::Failed) = read {
            self.failures.add(kept_name);
        }
        read
    }

    fn failed(&self) -> Option<&str> {
        self.failures.last_name()
    }

    fn faults(&self) -> u64 {
        self.failures.faults()
    }
}
