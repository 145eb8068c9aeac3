//! How long the pages of a store's database are, by the two bytes of SQLite's header that say so (16 and 17, the greater first).

use crate::places::{make_database, new_folder, path_in, remove};
use om_files::{Connects, Files};
use om_interval::Pid;
use om_store_files::Notes;
use std::fs;
use std::process::Abort;

fn check_pages(rt: &HostRuntime, stop: &impl Abort, file: &str, said: &[u8]) {
    let bytes = fs::read(rt, file).expect(stop, "a file");
    assert!(stop; bytes.as_slice().get(16..18) == Some(said), "{file}");
}

// Opens the databases of two processes.
fn connect_both(rt: &HostRuntime, stop: &impl Abort, prefix: &str) {
    let notes = Notes::new(rt.alloc(), 2).expect(stop, "memory");
    let files = Files {
        rt,
        prefix,
        notes: &notes,
    };
    for process in 0..2u32 {
        let pid = Pid::new(process).expect(stop, "a process");
        assert!(stop; files.connect(rt.alloc(), pid).is_ok());
    }
}

// A database that is made has pages of 1,024 bytes, also where it is opened again; one that was there keeps those of 4,096 that
// SQLite takes where nothing else is asked.
#[test]
fn pages_of_a_store(rt: HostRuntime) {
    let folder = new_folder(&rt, &rt);
    let prefix = path_in(&rt, &rt, &folder, "s");
    let made = path_in(&rt, &rt, &folder, "s0.db");
    let stood = make_database(&rt, &rt, &folder, "s1.db", "CREATE TABLE t (a);");
    for _ in 0..2 {
        connect_both(&rt, &rt, &prefix);
        check_pages(&rt, &rt, &made, &[4, 0]);
        check_pages(&rt, &rt, &stood, &[16, 0]);
    }
    remove(&rt, &rt, &folder);
}
