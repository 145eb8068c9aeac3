//! What a run of the program has beside its input and its text: files that are made for it, and reasons.

ghost use Rattle.std.specs.Prelude.{◌≡◌, ◌⊎◌, IfErr};
ghost use Rattle.om_run_commands.specs.Modes.{IsErrorOfContext};

use crate::watching::Stage;
use om_arguments::{Checking, Kills, Running};
use om_commands::CommandError;
use om_files::first_unusable;
use om_outcomes::Reasons;
use om_process::Status;
use om_reasons::ends_text;
use om_run_commands::{
    ClusterScript, RandomKills, RunContext, has_kills_left, kills_left_text, refused_sends_text,
    trapped_text, waiting_text,
};
use om_runner::Watch;
use om_store_files::{
    Clash, FilesBefore, Notes, PlaceError, Places, clash_with_databases, clash_with_streams,
    clashes_with_stores, store_of,
};
use std::alloc::AllocError;
use std::fmt::Display;
use std::fs::File;
use std::io::Write;
use std::sync::Wait;
use std::{fs, io};

// A run that is asked for.
#[derive(Clone, Copy)]
pub(crate) struct Job<'a> {
    pub(crate) running: Running<'a>,
    // The file that it reads, where one is named.
    pub(crate) input: Option<&'a str>,
    // What the system answers where files of its stores fail, where they are files.
    pub(crate) notes: Option<&'a Notes>,
}

// What a run has beside its input and its text.
#[derive(Drop)]
pub(crate) struct Surroundings<'a, 'w, R> {
    pub(crate) rt: &'a HostRuntime,
    threads: &'a R,
    pub(crate) job: Job<'a>,
    // Who sees what the processes do, where somebody is told.
    pub(crate) watch: Option<&'w Watch>,
    stage: &'w Stage,
    pub(crate) reasons: Reasons,
    // Whether a kill of the input did not come, or it cannot be told.
    pub(crate) lacks_kill: bool,
    // How many stores are to be put into their one files: all of a run that ended well.
    pub(crate) written: usize,
    // The files of the stores, where the run makes them.
    places: Option<Places>,
    // What stood at the names of the stores, where the run takes them up.
    standing: Option<FilesBefore>,
    // The file of a witness or a record.
    file: Option<File>,
}

impl<'a, 'w, R: Wait> RunContext for Surroundings<'a, 'w, R> {
    fn random_kills(&self) -> Option<RandomKills> {
        let Kills { count, seed } = self.job.running.kills?;
        let count = count as usize;
        Some(RandomKills { count, seed })
    }

    fn begin(&mut self, script: &ClusterScript) -> Result<(), CommandError> {
        let n = script.programs().n();
        self.refuse_clash(n)?;
        self.make_places(n)?;
        let made = self.make_file();
        match made {
            Ok(()) => self.stage.begin(),
            Err(_) => self.remove_empty(),
        }
        made
    }

    fn write(&mut self, text: &[u8]) -> Result<(), CommandError> {
        let Some(file) = &mut self.file else {
            return Err(CommandError::CannotWrite);
        };
        match file.write_all(text) {
            Ok(()) => Ok(()),
            Err(error) => {
                let path = file_made_by(self.job.running.checking).unwrap_or("");
                self.reasons.add(path, error);
                Err(CommandError::CannotWrite)
            }
        }
    }

    // Notes, where the run ended well, that each store is to be put into its one file; where it was refused, removes the files that
    // nobody wrote to.
    fn end(&mut self, script: &ClusterScript, outcome: Result<&[Status], CommandError>) {
        match outcome {
            Ok(_) => {
                self.written = script.programs().n();
                self.add_trapped(script);
                self.add_kills_left(script);
            }
            Err(error) => {
                self.blame(script, error);
                self.remove_empty();
            }
        }
    }
}

impl<'a, 'w, R: Wait> Surroundings<'a, 'w, R> {
    // Makes the surroundings of a run for which nothing is made yet.
    pub(crate) fn new(
        rt: &'a HostRuntime,
        threads: &'a R,
        job: Job<'a>,
        watch: Option<&'w Watch>,
        stage: &'w Stage,
        are_heard: bool,
    ) -> Surroundings<'a, 'w, R> {
        Surroundings {
            rt,
            threads,
            job,
            watch,
            stage,
            reasons: Reasons::empty(rt.alloc(), are_heard),
            lacks_kill: false,
            written: 0,
            places: None,
            standing: None,
            file: None,
        }
    }

    // Refuses where the file that the run is to write would overwrite something that the run has anyway.
    fn refuse_clash(&mut self, n: usize) -> Result<(), CommandError>
        ensures { IfErr result IsErrorOfContext }
    {
        let Some(path) = file_made_by(self.job.running.checking) else {
            return Ok(());
        };
        match clash_of(self.rt, self.job, path, n) {
            Ok(None) => Ok(()),
            Ok(Some(clash)) => {
                self.reasons.add(path, clash);
                Err(CommandError::CannotWrite)
            }
            Err(_) => Err(CommandError::NoMemory),
        }
    }

    // Makes the files of the stores, where there are to be some that are not taken up. A name that is there refuses the run, and no
    // file is left of it.
    fn make_places(&mut self, n: usize) -> Result<(), CommandError>
        ensures { IfErr result IsErrorOfContext }
    {
        let Some(prefix) = self.job.running.prefix else {
            return Ok(());
        };
        if self.job.running.resumes {
            return self.look(prefix, n);
        }
        match Places::make(self.rt, prefix, n) {
            Ok(places) => {
                self.places = Some(places);
                Ok(())
            }
            Err(error) => {
                self.reasons.advise(&error);
                Err(refusal_of(error))
            }
        }
    }

    // Sees what stands at the names of the stores that are taken up.
    fn look(&mut self, prefix: &str, n: usize) -> Result<(), CommandError>
        ensures { IfErr result IsErrorOfContext }
    {
        match FilesBefore::of(self.rt, prefix, n) {
            Ok(standing) => {
                self.standing = Some(standing);
                Ok(())
            }
            Err(_) => Err(CommandError::NoMemory),
        }
    }

    // Makes, or empties, the file that is to be written beside the text, where there is to be one.
    fn make_file(&mut self) -> Result<(), CommandError>
        ensures { IfErr result IsErrorOfContext }
    {
        let Some(path) = file_made_by(self.job.running.checking) else {
            return Ok(());
        };
        match made(self.rt, path) {
            Ok(file) => {
                self.file = Some(file);
                Ok(())
            }
            Err(error) => {
                self.reasons.add(path, error);
                Err(CommandError::CannotWrite)
            }
        }
    }

    // Removes the files of the stores that the run made and nobody wrote to.
    fn remove_empty(&self) {
        let Some(prefix) = self.job.running.prefix else {
            return;
        };
        if let Some(places) = &self.places {
            places.remove_empty(self.rt, prefix);
        }
        if let Some(standing) = &self.standing {
            standing.tidy(self.rt, prefix);
        }
    }

    // Tells more of why the run was refused: which file could not be used, or what each process was doing that had not ended.
    fn blame(&mut self, script: &ClusterScript, error: CommandError) {
        match error {
            CommandError::StoreFault => self.add_fault(script),
            CommandError::OutOfTurns => {
                self.add_ended(script);
                self.add_trapped(script);
                self.add_waiting(script);
                self.add_kills_left(script);
            }
            CommandError::StoreInUse(process) => self.add_store(process, "is in use"),
            CommandError::AnotherCluster(process) => self.add_store(
                process,
                "is of another process, program or number of processes",
            ),
            CommandError::StoreMissing(process) => self.add_store(
                process,
                "holds nothing, and others more than a start: put it back, or remove all of them to begin anew",
            ),
            _ => {}
        }
    }

    // Adds what is the matter with the store of a process.
    fn add_store<D: Display + Drop>(&mut self, process: usize, what: D) {
        let prefix = self.job.running.prefix.unwrap_or("");
        if let Ok(file) = store_of(self.rt.alloc(), prefix, process) {
            self.reasons.add(file.as_str(), what);
        }
    }

    // Adds which file could not be used: by what the system answered as it was opened or used; or, of those that the run found, by what
    // stands in it.
    fn add_fault(&mut self, script: &ClusterScript) {
        let Some(prefix) = self.job.running.prefix else {
            return;
        };
        if let Some((process, error)) = first_answer(self.job.notes) {
            self.add_store(process, error);
            return;
        }
        if !self.job.running.resumes {
            return;
        }
        if let Ok(Some(blamed)) = first_unusable(self.rt, prefix, script.programs().n()) {
            self.reasons.advise(blamed);
        }
    }

    // Adds which processes ended, and with which code.
    fn add_ended(&mut self, script: &ClusterScript) {
        let Some(watch) = self.watch else {
            return;
        };
        let Ok(sights) = watch.sights(self.threads, self.rt.alloc()) else {
            return;
        };
        if let Ok(text) = ends_text(self.rt.alloc(), script.programs(), &sights) {
            self.reasons.add_lines(text.as_str());
        }
    }

    // Adds which processes trapped, and of what, and of which sends were refused.
    fn add_trapped(&mut self, script: &ClusterScript) {
        let Some(watch) = self.watch else {
            return;
        };
        let Ok(sights) = watch.sights(self.threads, self.rt.alloc()) else {
            return;
        };
        if let Ok(text) = trapped_text(self.rt.alloc(), script, &sights) {
            self.reasons.add_lines(text.as_str());
        }
        if let Ok(text) = refused_sends_text(self.rt.alloc(), script, &sights) {
            self.reasons.add_lines(text.as_str());
        }
    }

    // Adds which kills did not come. Those that are drawn need not.
    fn add_kills_left(&mut self, script: &ClusterScript) {
        let Some(watch) = self.watch else {
            return;
        };
        let Ok(failures) = watch.failures(self.threads, self.rt.alloc()) else {
            self.lacks_kill = true;
            return;
        };
        let are_drawn = self.job.running.kills.is_some();
        self.lacks_kill = !are_drawn && has_kills_left(script.kills(), &failures);
        if let Ok(text) = kills_left_text(self.rt.alloc(), script, &failures) {
            self.reasons.add_lines(text.as_str());
        }
    }

    fn add_waiting(&mut self, script: &ClusterScript) {
        let Some(watch) = self.watch else {
            return;
        };
        let Ok(sights) = watch.sights(self.threads, self.rt.alloc()) else {
            return;
        };
        if let Ok(text) = waiting_text(self.rt.alloc(), script, &sights) {
            self.reasons.add_lines(text.as_str());
        }
    }
}

// Returns the name of the file that is made beside the text, if any.
fn file_made_by<'a>(checking: Checking<'a>) -> Option<&'a str> {
    match checking {
        Checking::Off
        | Checking::Check
        | Checking::Follow
        | Checking::Raw(_)
        | Checking::FollowRaw(_) => None,
        Checking::Witness(path) | Checking::Record(path) => Some(path),
    }
}

// Returns what a file is for the run already that is to be written.
fn clash_of(
    rt: &HostRuntime,
    job: Job<'_>,
    path: &str,
    n: usize,
) -> Result<Option<Clash>, AllocError> {
    if let Some(prefix) = job.running.prefix {
        if clashes_with_stores(rt, path, prefix, n)? {
            return Ok(Some(Clash::Store));
        }
    }
    let streams = clash_with_streams(rt, path, job.input);
    if streams.is_some() {
        return Ok(streams);
    }
    Ok(clash_with_databases(rt, path))
}

// Returns the first process whose files failed, and what the system answered.
fn first_answer(notes: Option<&Notes>) -> Option<(usize, io::Error)> {
    notes?.first()
}

// Returns why no stores are made where their files are not.
fn refusal_of(error: PlaceError) -> CommandError
    ensures { IsErrorOfContext result }
{
    match error {
        PlaceError::Memory => CommandError::NoMemory,
        PlaceError::Taken(_) | PlaceError::Empty(_) | PlaceError::NotMade(..) =>
            CommandError::StoreFault,
    }
}

// Opens the file of this name, which is made, or emptied. Its descriptor is none of the standard streams', which may be closed: what
// is meant for one of these must not land in the file.
fn made(rt: &HostRuntime, path: &str) -> io::Result<File> {
    fs::create(rt, path).and_then(|file| file.try_clone())
}
