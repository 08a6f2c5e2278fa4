ghost use Rattle.std.specs.Prelude.{◌≡◌, Some, None, take, IfOk, OnOk, IsErrOf, option_map};
ghost use Rattle.outside.specs.Files.{file_of};
ghost use Rattle.outside.specs.StoreContents.{files_of};

use crate::failures::FailedReads;
use crate::plan::FaultPlan;
use crate::prefix::prefix_of;
use crate::store::{ReadRefused, Store};
use std::alloc::Global;
use std::marker::Model;

/// A file of a store in memory.
#[derive(Drop)]
pub struct NamedFile {
    pub name: String,
    pub bytes: Vec<u8>,
}

/// Files in memory. A read that is to fail and a name that no file has are counted faults.
#[derive(Drop)]
pub struct MemStore {
    files: Vec<NamedFile>,
    plan: FaultPlan,
    failures: FailedReads,
}

impl Model for MemStore {
    ghost use Rattle.outside.specs.StoreContents.{StoreContents, files_of};

    ghost Value = { StoreContents };

    ghost view = { λ store. record {
      files = files_of store.files.items;
      plan = store.plan;
      failures = store.failures;
    } };
}

impl MemStore {
    ghost use Rattle.outside.specs.StoreContents.{new_store};

    /// A store of these files. `failing` are the numbers, from 0 on, of the reads that are to fail.
    pub fn new(files: Vec<NamedFile>, failing: Vec<u64>) -> MemStore
        ensures { result ≡ new_store files.items failing.items }
    {
        MemStore {
            files,
            plan: FaultPlan::new(failing),
            failures: FailedReads::new(),
        }
    }
}

/// The bytes of the first file of that name.
fn bytes_of<'f>(files: &'f [NamedFile], name: &str) -> Option<&'f [u8]>
    ensures { option_map (λ bytes. bytes.now) result ≡ file_of (files_of files.now) name.now }
{
    for file in files {
        if file.name.as_str() == name {
            return Some(file.bytes.as_slice());
        }
    }
    None
}

impl Store for MemStore {
    ghost use Rattle.outside.specs.Logs.{Reads};
    ghost use Rattle.outside.specs.StoreContents.{found, after_read, after_failure, log_of_store};

    ghost log = { log_of_store };

    fn read(&mut self, alloc: Global, name: &str, limit: usize) -> Result<Vec<u8>, ReadRefused>
        // What each store promises.
        ensures reads { Reads result (log_of_store self.old)
            (log_of_store self.new) name.now limit }

        // A read fails just where it is to fail or no file has the name, unless memory runs out.
        ensures found { IfOk result
            (λ bytes. option_map (take limit) (found self.old name.now) ≡ Some bytes.items) }
        ensures none { IsErrOf result ReadRefused.Failed → found self.old name.now ≡ None }

        // What it leaves.
        ensures ok { OnOk result (self.new ≡ after_read self.old) }
        ensures memory { IsErrOf result ReadRefused.Memory → self.new ≡ after_read self.old }
        ensures failed { IsErrOf result ReadRefused.Failed
            → self.new ≡ after_failure self.old name.now }
    {
        let is_to_fail = self.plan.next_fails();
        let Ok(kept_name) = String::from_str(alloc, name) else {
            return Err(ReadRefused::Memory);
        };
        let bytes = if is_to_fail {
            None
        } else {
            bytes_of(&self.files, name)
        };
        let Some(bytes) = bytes else {
            self.failures.add(kept_name);
            return Err(ReadRefused::Failed);
        };
        match Vec::from_slice(alloc, prefix_of(bytes, limit)) {
            Ok(prefix) => Ok(prefix),
            Err(_) => Err(ReadRefused::Memory),
        }
    }

    fn failed(&self) -> Option<&str> {
        self.failures.last_name()
    }

    fn faults(&self) -> u64 {
        self.failures.faults()
    }
}
