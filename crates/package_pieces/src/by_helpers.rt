//! Several threads as the hands that judge a package.

use crate::building::build_all;
use crate::claims::find_called_with;
use crate::numbers::{have_several, open_several, walk_several};
use crate::solving::solve_all;
use crate::telling::tell_all;
use called_parameters::{Called, ImportedCalls};
use calls_flags::{FileBodies, KnownCalls, Telling, ToldFile, bodies_of_files, tell_files};
use facts::Table;
use findings::find_faults;
use one_package::{HandWork, Hands};
use report::Diagnostic;
use std::alloc::Global;
use std::sync::Wait;
use std::thread::Threads;
use workers::{Free, Helpers, PieceFault};

/// These helpers tell of the files of a package, make its bodies, and judge them. Where there is nothing to share, the
/// thread that asks does it alone, so that none is started for nothing.
#[derive(Drop)]
pub struct ByHelpers<'h, R> {
    pub helpers: &'h Helpers<'h, R, Free>,
}

impl<'h, R: Threads + Wait> Hands for ByHelpers<'h, R> {
    type Fault = PieceFault;

    fn tell<'a>(
        &self,
        alloc: Global,
        telling: Telling<'_, 'a>,
    ) -> Result<Vec<ToldFile<'a>>, PieceFault> {
        if walk_several(telling.walked, telling.files.len()) {
            tell_all(alloc, self.helpers, telling)
        } else {
            Ok(tell_files(alloc, telling)?)
        }
    }

    fn bodies<'e, 'a>(
        &self,
        alloc: Global,
        files: &'e [ToldFile<'a>],
    ) -> Result<Vec<FileBodies<'e, 'a>>, PieceFault> {
        if open_several(files) {
            build_all(alloc, self.helpers, files)
        } else {
            Ok(bodies_of_files(alloc, files)?)
        }
    }

    fn called<'a>(
        &self,
        alloc: Global,
        table: &Table<'a>,
        files: &[FileBodies<'_, 'a>],
        imported: &ImportedCalls<'a, '_>,
    ) -> Result<Called<'a>, PieceFault> {
        find_called_with(alloc, self.helpers, table, files, imported)
    }

    fn faults<'a>(
        &self,
        alloc: Global,
        files: &[FileBodies<'_, 'a>],
        calls: KnownCalls<'_, 'a>,
    ) -> Result<Vec<Diagnostic<'a>>, PieceFault> {
        if have_several(files) {
            solve_all(alloc, self.helpers, files, calls)
        } else {
            Ok(find_faults(alloc, files, calls)?)
        }
    }

    fn work<X, J: HandWork<X>>(&self, alloc: Global, job: &J) -> Result<X, PieceFault> {
        job.helped(alloc, self.helpers)
    }
}
