//! Who tells of the files of a package, makes its bodies, and judges them.

ghost use Rattle.std.specs.Prelude.{◌↔◌, List, IfOk, Contains, map};
ghost use Rattle.calls_flags.specs.Claims.{HaveFacts};
ghost use Rattle.calls_flags.specs.FilesBodies.{HaveBodies, TellAll};
ghost use Rattle.called_parameters.specs.Called.{is_called, flags_by_path};
ghost use Rattle.calls_flags.specs.KnownCalls.{known_calls};
ghost use Rattle.calls_flags.specs.ToldFiles.{seen_by, TellAllSeen};
ghost use Rattle.facts.specs.FactViews.{facts_by_name};
ghost use Rattle.findings.specs.FoundEntries.{IsFoundIn};
ghost use Rattle.meaning.specs.Uses.{Seen};
ghost use Rattle.meaning_packages.specs.CallsFlags.{AreMost, FileWithCredits};
ghost use Rattle.report.specs.Entries.{Entry, entry_of};

use called_parameters::{Called, ImportedCalls};
use calls_flags::{
    FileBodies, KnownCalls, Telling, ToldFile, bodies_of_files, find_called, tell_files,
};
use facts::Table;
use findings::find_faults;
use report::Diagnostic;
use std::alloc::{AllocError, Global};
use std::sync::Wait;
use std::thread::Threads;
use workers::{Free, Helpers, PieceFault};

/// Work of any kind that one thread can do alone, and several that help each other. What comes of it is the same.
pub trait HandWork<X> {
    /// What comes of it.
    ghost gives: { Self → X → Type 0 };

    /// The thread that asks for it does all of it.
    ///
    /// # Errors
    ///
    /// Memory was refused.
    fn alone(&self, alloc: Global) -> Result<X, AllocError>
        ensures { IfOk result (gives self.now) };

    /// These helpers do it.
    ///
    /// # Errors
    ///
    /// Memory was refused, or else a thread could not be started.
    fn helped<R: Threads + Wait>(
        &self,
        alloc: Global,
        helpers: &Helpers<'_, R, Free>,
    ) -> Result<X, PieceFault>
        ensures { IfOk result (gives self.now) };
}

/// Who tells of the files of a package, makes its bodies, and judges them: one thread, or several. What comes of it is
/// the same.
pub trait Hands {
    /// Why there may be no answer. Memory may be refused to each.
    type Fault: From<AllocError>;

    /// Tells of each file of a package.
    ///
    /// # Errors
    ///
    /// Memory was refused, or what else keeps these hands from it.
    fn tell<'a>(
        &self,
        alloc: Global,
        telling: Telling<'_, 'a>,
    ) -> Result<Vec<ToldFile<'a>>, Self::Fault>
        ensures { IfOk result (λ told. TellAllSeen (seen_by telling.entry) told.items) };

    /// The bodies of each file of a package: each is made once, for all that asks for its paths.
    ///
    /// # Errors
    ///
    /// Memory was refused, or what else keeps these hands from it.
    fn bodies<'e, 'a>(
        &self,
        alloc: Global,
        files: &'e [ToldFile<'a>],
    ) -> Result<Vec<FileBodies<'e, 'a>>, Self::Fault>
        ensures { IfOk result (λ made. (seens : List Seen) → TellAllSeen seens files.now
            → HaveBodies seens made.items) };

    /// Which functions of a package are known to call which of their parameters, where the functions of the package
    /// have these facts, and this is known of its imports: the most consistent flags.
    ///
    /// # Errors
    ///
    /// Memory was refused, or what else keeps these hands from it.
    fn called<'a>(
        &self,
        alloc: Global,
        table: &Table<'a>,
        files: &[FileBodies<'_, 'a>],
        imported: &ImportedCalls<'a, '_>,
    ) -> Result<Called<'a>, Self::Fault>
        ensures { IfOk result (λ called. (fs : List FileWithCredits) → TellAll fs files.now
            → HaveFacts (facts_by_name table.now) fs
            → AreMost fs (flags_by_path imported.now) (is_called called)) };

    /// All that is to be said of the files of a package, by what is known of functions, in no order; one may come
    /// twice.
    ///
    /// # Errors
    ///
    /// Memory was refused, or what else keeps these hands from it.
    fn faults<'a>(
        &self,
        alloc: Global,
        files: &[FileBodies<'_, 'a>],
        calls: KnownCalls<'_, 'a>,
    ) -> Result<Vec<Diagnostic<'a>>, Self::Fault>
        ensures { IfOk result (λ found. (fs : List FileWithCredits) → TellAll fs files.now
            → (x : Entry) → Contains (map entry_of found.items) x ↔ IsFoundIn fs (known_calls calls.entry) x) };

    /// Does work of this kind.
    ///
    /// # Errors
    ///
    /// Memory was refused, or what else keeps these hands from it.
    fn work<X, J: HandWork<X>>(&self, alloc: Global, job: &J) -> Result<X, Self::Fault>
        ensures { IfOk result (J.gives job.now) };
}

/// The thread that asks for it does all of it.
#[derive(Clone, Copy)]
pub struct Alone;

impl Hands for Alone {
    type Fault = AllocError;

    fn tell<'a>(
        &self,
        alloc: Global,
        telling: Telling<'_, 'a>,
    ) -> Result<Vec<ToldFile<'a>>, AllocError> {
        tell_files(alloc, telling)
    }

    fn bodies<'e, 'a>(
        &self,
        alloc: Global,
        files: &'e [ToldFile<'a>],
    ) -> Result<Vec<FileBodies<'e, 'a>>, AllocError> {
        bodies_of_files(alloc, files)
    }

    fn called<'a>(
        &self,
        alloc: Global,
        table: &Table<'a>,
        files: &[FileBodies<'_, 'a>],
        imported: &ImportedCalls<'a, '_>,
    ) -> Result<Called<'a>, AllocError> {
        find_called(alloc, table, files, imported)
    }

    fn faults<'a>(
        &self,
        alloc: Global,
        files: &[FileBodies<'_, 'a>],
        calls: KnownCalls<'_, 'a>,
    ) -> Result<Vec<Diagnostic<'a>>, AllocError> {
        find_faults(alloc, files, calls)
    }

    fn work<X, J: HandWork<X>>(&self, alloc: Global, job: &J) -> Result<X, AllocError> {
        job.alone(alloc)
    }
}
