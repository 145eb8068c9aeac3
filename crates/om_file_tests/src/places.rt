//! Files of the system: those that a run makes and removes, those that it is not to overwrite, and those that are no stores.

use om_files::{fault_of, first_unusable};
use om_store_files::{
    Clash, FilesBefore, PlaceError, Places, clash_with_databases, clash_with_streams,
    clashes_with_stores,
};
use sqlite::Connection;
use std::hash::{BuildHasher, RandomState};
use std::os::unix::fs::symlink;
use std::process::Abort;
use std::{env, fs};

/// A folder of its own for a test, with nothing in it.
pub fn new_folder(rt: &HostRuntime, stop: &impl Abort) -> String {
    let key = RandomState::new(rt).expect(stop, "a key").hash_one(&0u8);
    let parent = env::temp_dir(rt).expect(stop, "a place for folders");
    let folder = format!(in rt.alloc(); "{}/omlog{key}", parent.as_str()).expect(stop, "memory");
    fs::create_dir(rt, folder.as_str()).expect(stop, "a folder");
    folder
}

/// The path of a name in a folder.
pub fn path_in(rt: &HostRuntime, stop: &impl Abort, folder: &str, name: &str) -> String {
    format!(in rt.alloc(); "{folder}/{name}").expect(stop, "memory")
}

fn write(rt: &HostRuntime, stop: &impl Abort, folder: &str, name: &str, text: &str) -> String {
    let path = path_in(rt, stop, folder, name);
    fs::write(rt, path.as_str(), text.as_bytes()).expect(stop, "a file");
    path
}

// Files by their names, and what they have.
fn write_all(rt: &HostRuntime, stop: &impl Abort, folder: &str, files: &[(&str, &str)]) {
    for (name, text) in files {
        write(rt, stop, folder, name, text);
    }
}

/// Removes the folder of a test.
pub fn remove(rt: &HostRuntime, stop: &impl Abort, folder: &str) {
    fs::remove_dir_all(rt, folder).expect(stop, "an end");
}

fn link(rt: &HostRuntime, stop: &impl Abort, folder: &str, (name, to): (&str, &str)) -> String {
    let path = path_in(rt, stop, folder, name);
    symlink(rt, to, path.as_str()).expect(stop, "a link");
    path
}

// Which of the names are there, and no others of these.
fn check_there(rt: &HostRuntime, stop: &impl Abort, folder: &str, names: &[(&str, bool)]) {
    for (name, is_there) in names {
        let found = fs::symlink_metadata(rt, path_in(rt, stop, folder, name).as_str());
        assert!(stop; found.is_ok() == *is_there, "{name}");
    }
}

// Making so many files is refused by a name that ends so, which is an empty file or not.
fn check_refused(
    rt: &HostRuntime,
    stop: &impl Abort,
    prefix: &str,
    n: usize,
    name: &str,
    is_empty: bool,
) {
    match Places::make(rt, prefix, n) {
        Err(PlaceError::Taken(found)) => {
            assert!(stop; found.ends_with(name) && !is_empty, "{found} is taken");
        }
        Err(PlaceError::Empty(found)) => {
            assert!(stop; found.ends_with(name) && is_empty, "{found} is empty");
        }
        Err(error) => panic!(stop; "{error}"),
        Ok(_) => panic!(stop; "{prefix} is not refused"),
    }
}

// A run that is refused leaves what another has made.
#[test]
fn two_runs_at_one_prefix(rt: HostRuntime) {
    let folder = new_folder(&rt, &rt);
    let prefix = path_in(&rt, &rt, &folder, "s");
    let first = Places::make(&rt, &prefix, 2).expect(&rt, "two files");
    check_refused(&rt, &rt, &prefix, 3, "s0.db", true);
    check_there(
        &rt,
        &rt,
        &folder,
        &[("s0.db", true), ("s1.db", true), ("s2.db", false)],
    );
    first.remove_empty(&rt, &prefix);
    check_there(&rt, &rt, &folder, &[("s0.db", false), ("s1.db", false)]);
    remove(&rt, &rt, &folder);
}

// By prefix, the name that is taken, and whether it is an empty file.
static TAKEN: [(&str, &str, bool); 3] = [
    ("t", "t1.db", false),
    ("u", "u1.db-wal", true),
    ("v", "v0.db", false),
];

static NOT_TAKEN: [(&str, bool); 4] = [
    ("t0.db", false),
    ("t1.db", true),
    ("u0.db", false),
    ("v1.db", false),
];

#[test]
fn names_that_are_taken(rt: HostRuntime) {
    let folder = new_folder(&rt, &rt);
    write_all(&rt, &rt, &folder, &[("t1.db", "x"), ("u1.db-wal", "")]);
    link(&rt, &rt, &folder, ("v0.db", "nowhere"));
    for (prefix, name, is_empty) in &TAKEN {
        let prefix = path_in(&rt, &rt, &folder, prefix);
        check_refused(&rt, &rt, &prefix, 2, name, *is_empty);
    }
    check_there(&rt, &rt, &folder, &NOT_TAKEN);
    remove(&rt, &rt, &folder);
}

// What is written where five files were made: into them and into logs.
static INTO: [(&str, &str); 4] = [
    ("s0.db", "x"),
    ("s1.db-wal", "x"),
    ("s2.db-wal", ""),
    ("other", ""),
];

static KEPT: [(&str, bool); 7] = [
    ("s0.db", true),
    ("s1.db", true),
    ("s1.db-wal", true),
    ("s2.db", false),
    ("s2.db-wal", false),
    ("s3.db", true),
    ("s4.db", false),
];

// Gives a file the name of another.
fn rename(rt: &HostRuntime, stop: &impl Abort, folder: &str, from: &str, to: &str) {
    let (from, to) = (
        path_in(rt, stop, folder, from),
        path_in(rt, stop, folder, to),
    );
    fs::rename(rt, from.as_str(), to.as_str()).expect(stop, "another file");
}

// Of the files that were made those stay that have something in them, or whose log has, and what has the name of one by now.
#[test]
fn files_that_are_not_removed(rt: HostRuntime) {
    let folder = new_folder(&rt, &rt);
    let prefix = path_in(&rt, &rt, &folder, "s");
    let places = Places::make(&rt, &prefix, 5).expect(&rt, "five files");
    write_all(&rt, &rt, &folder, &INTO);
    rename(&rt, &rt, &folder, "other", "s3.db");
    places.remove_empty(&rt, &prefix);
    check_there(&rt, &rt, &folder, &KEPT);
    remove(&rt, &rt, &folder);
}

// Names, and whether what is written there is a store of two processes or lies beside one.
static NAMES: [(&str, bool); 12] = [
    ("s0.db", true),
    ("s1.db", true),
    ("s1.db-wal", true),
    ("s0.db-shm", true),
    ("s0.db-journal", true),
    ("sub/../s1.db", true),
    ("link", true),
    ("s2.db", false),
    ("s0.dbx", false),
    ("s0.db-walx", false),
    ("sub/s0.db", false),
    ("missing/s0.db", false),
];

// Returns whether the name in a folder is that of a store of two processes, or lies beside one.
fn clashes(rt: &HostRuntime, stop: &impl Abort, folder: &str, name: &str) -> bool {
    let prefix = path_in(rt, stop, folder, "s");
    let path = path_in(rt, stop, folder, name);
    clashes_with_stores(rt, &path, &prefix, 2).expect(stop, "memory")
}

#[test]
fn names_of_stores(rt: HostRuntime) {
    let folder = new_folder(&rt, &rt);
    let sub = path_in(&rt, &rt, &folder, "sub");
    fs::create_dir(&rt, sub.as_str()).expect(&rt, "a folder");
    link(&rt, &rt, &folder, ("link", "sub/../s0.db"));
    for (name, wanted) in &NAMES {
        assert!(&rt; clashes(&rt, &rt, &folder, name) == *wanted, "{name}");
    }
    remove(&rt, &rt, &folder);
}

// Names, and whether they are those of the input.
static INPUTS: [(&str, bool); 5] = [
    ("input", true),
    ("same", true),
    ("link", true),
    ("other", false),
    ("missing", false),
];

fn check_input(
    rt: &HostRuntime,
    stop: &impl Abort,
    folder: &str,
    input: &str,
    (name, clash): (&str, bool),
) {
    let path = path_in(rt, stop, folder, name);
    let found = clash_with_streams(rt, &path, Some(input));
    let wanted = if clash { Some(Clash::Input) } else { None };
    assert!(stop; found == wanted, "{name}");
}

#[test]
fn names_of_the_input(rt: HostRuntime) {
    let folder = new_folder(&rt, &rt);
    let input = write(&rt, &rt, &folder, "input", "x");
    let same = path_in(&rt, &rt, &folder, "same");
    fs::hard_link(&rt, input.as_str(), same.as_str()).expect(&rt, "a name");
    link(&rt, &rt, &folder, ("link", "same"));
    write(&rt, &rt, &folder, "other", "x");
    for row in &INPUTS {
        check_input(&rt, &rt, &folder, &input, *row);
    }
    remove(&rt, &rt, &folder);
}

// The file is told to be no store in words that begin so.
fn check_fault(rt: &HostRuntime, stop: &impl Abort, file: &str, words: &str) {
    let told = fault_of(rt, file)
        .to_string(rt.alloc())
        .expect(stop, "memory");
    assert!(stop; told.starts_with(words), "{file}: {told}");
}

/// Makes a database by statements.
pub fn make_database(
    rt: &HostRuntime,
    stop: &impl Abort,
    folder: &str,
    name: &str,
    statements: &str,
) -> String {
    let path = path_in(rt, stop, folder, name);
    let mut conn = Connection::open(rt, path.as_str()).expect(stop, "a database");
    conn.execute_batch(statements).expect(stop, "tables");
    conn.close().expect(stop, "a file");
    path
}

const TABLES: &str = "CREATE TABLE receipts (x INTEGER PRIMARY KEY, body BLOB NOT NULL);
CREATE TABLE checkpoints (x INTEGER PRIMARY KEY, body BLOB NOT NULL);";

// What a file has, and how what is told of it begins.
static TEXTS: [(&str, &str); 4] = [
    ("", "is half a store"),
    ("\0lite", "is half a store"),
    ("text", "is no database"),
    ("SQLite", "cannot be read"),
];

// A database and the statements that make it, and how what is told of it begins.
static DATABASES: [(&str, &str, &str, &str); 4] = [
    (
        "more",
        TABLES,
        "CREATE TABLE notes (text TEXT);",
        "has an index",
    ),
    (
        "none",
        "",
        "CREATE TABLE notes (text TEXT); DROP TABLE notes;",
        "is half a store",
    ),
    (
        "one",
        "",
        "CREATE TABLE notes (text TEXT);",
        "is a database without",
    ),
    ("store", TABLES, "", "is a store"),
];

// Makes a database by statements and then by more.
fn make_tables(
    rt: &HostRuntime,
    stop: &impl Abort,
    folder: &str,
    name: &str,
    (tables, more): (&str, &str),
) -> String {
    let statements = format!(in rt.alloc(); "{tables} {more}").expect(stop, "memory");
    make_database(rt, stop, folder, name, &statements)
}

#[test]
fn files_that_are_no_stores(rt: HostRuntime) {
    let folder = new_folder(&rt, &rt);
    for (text, words) in &TEXTS {
        check_fault(&rt, &rt, &write(&rt, &rt, &folder, "file", text), words);
    }
    check_fault(&rt, &rt, &folder, "is no file");
    let missing = path_in(&rt, &rt, &folder, "missing");
    check_fault(&rt, &rt, &missing, "No such file");
    remove(&rt, &rt, &folder);
}

#[test]
fn databases_that_are_no_stores(rt: HostRuntime) {
    let folder = new_folder(&rt, &rt);
    for (name, tables, more, words) in &DATABASES {
        let file = make_tables(&rt, &rt, &folder, name, (*tables, *more));
        check_fault(&rt, &rt, &file, words);
    }
    remove(&rt, &rt, &folder);
}

const MORE_TABLES: &str = "CREATE TABLE outputs (x INTEGER PRIMARY KEY, body BLOB NOT NULL);
CREATE TABLE senders (x INTEGER PRIMARY KEY, body BLOB NOT NULL);
CREATE TABLE about (x INTEGER PRIMARY KEY, body BLOB NOT NULL);";

// Which file of so many processes is told to be of no use, in words that begin so; none where there are no words.
fn check_blamed(rt: &HostRuntime, stop: &impl Abort, prefix: &str, n: usize, words: Option<&str>) {
    let blamed = first_unusable(rt, prefix, n).expect(stop, "memory");
    match (blamed, words) {
        (None, None) => {}
        (Some(blame), Some(words)) => {
            let told = blame.to_string(rt.alloc()).expect(stop, "memory");
            assert!(stop; told.ends_with(words), "{prefix}: {told}");
        }
        (blamed, words) => panic!(stop; "{prefix}: {blamed:?}, {words:?}"),
    }
}

const CLOSED: &str =
    "s3.db: is a store of a run without --resume, which no run takes up: another --store, or move it";

const TEXT: &str = "s2.db: is no database of SQLite";

// A run that resumes takes up stores of five tables, and makes what is not there or half made.
#[test]
fn stores_that_are_not_taken_up(rt: HostRuntime) {
    let folder = new_folder(&rt, &rt);
    make_tables(&rt, &rt, &folder, "s0.db", (TABLES, MORE_TABLES));
    write(&rt, &rt, &folder, "s1.db", "");
    make_database(&rt, &rt, &folder, "s3.db", TABLES);
    let prefix = path_in(&rt, &rt, &folder, "s");
    check_blamed(&rt, &rt, &prefix, 3, None);
    check_blamed(&rt, &rt, &prefix, 4, Some(CLOSED));
    write(&rt, &rt, &folder, "s2.db", "text");
    check_blamed(&rt, &rt, &prefix, 4, Some(TEXT));
    remove(&rt, &rt, &folder);
}

// What stands there before a start that is refused, beside a database.
static BEFORE: [(&str, &str); 2] = [("s1.db", ""), ("s2.db-wal", "")];

// What the start makes, beside a log with a page.
static MADE: [(&str, &str); 7] = [
    ("s0.db-wal", "a head"),
    ("s1.db-wal", ""),
    ("s2.db", ""),
    ("s3.db", ""),
    ("s3.db-wal", ""),
    ("s4.db", ""),
    ("s5.db", "x"),
];

static LEFT: [(&str, bool); 12] = [
    ("s0.db", true),
    ("s0.db-wal", false),
    ("s1.db", true),
    ("s1.db-wal", false),
    ("s2.db", true),
    ("s2.db-wal", true),
    ("s3.db", false),
    ("s3.db-wal", false),
    ("s4.db", true),
    ("s4.db-wal", true),
    ("s5.db", true),
    ("s5.db-wal", false),
];

// A database whose log is removed: a connection that is closed leaves it.
fn make_without_log(rt: &HostRuntime, stop: &impl Abort, folder: &str) {
    make_database(rt, stop, folder, "s0.db", TABLES);
    let log = path_in(rt, stop, folder, "s0.db-wal");
    fs::remove_file(rt, log.as_str()).expect(stop, "a log");
}

fn write_page(rt: &HostRuntime, stop: &impl Abort, folder: &str, name: &str) {
    let page = "a page of a log"
        .repeat(rt.alloc(), 40)
        .expect(stop, "memory");
    write(rt, stop, folder, name, &page);
}

// Of what a refused start made nothing is left that holds nothing; what stood there before stays, and what has a page in its log.
#[test]
fn what_a_refused_start_leaves(rt: HostRuntime) {
    let folder = new_folder(&rt, &rt);
    let prefix = path_in(&rt, &rt, &folder, "s");
    make_without_log(&rt, &rt, &folder);
    write_all(&rt, &rt, &folder, &BEFORE);
    let standing = FilesBefore::of(&rt, &prefix, 6).expect(&rt, "memory");
    write_all(&rt, &rt, &folder, &MADE);
    write_page(&rt, &rt, &folder, "s4.db-wal");
    standing.tidy(&rt, &prefix);
    check_there(&rt, &rt, &folder, &LEFT);
    remove(&rt, &rt, &folder);
}

// Starts of files, and whether they are those of a database or of a log of one: by SQLite's description of its files.
static STARTS: [(&[u8], bool); 8] = [
    (b"SQLite format 3\0 and more", true),
    (b"SQLite format 3", true),
    (b"SQLite format 4\0", false),
    (b"SQLite format", false),
    (b"\x37\x7f\x06\x82\0\x2d\xe2\x18", true),
    (b"\x37\x7f\x06\x83", true),
    (b"\x37\x7f\x06\x84", false),
    (b"", false),
];

// A file is found to be a database or the log of one, or not.
fn check_database(rt: &HostRuntime, stop: &impl Abort, file: &str, clashes: bool) {
    let found = clash_with_databases(rt, file);
    let wanted = if clashes { Some(Clash::Database) } else { None };
    assert!(stop; found == wanted, "{file}");
}

#[test]
fn databases_that_are_not_overwritten(rt: HostRuntime) {
    let folder = new_folder(&rt, &rt);
    for (k, (start, clashes)) in STARTS.iter().enumerate() {
        let file = format!(in rt.alloc(); "{folder}/row {k}").expect(&rt, "memory");
        fs::write(&rt, file.as_str(), *start).expect(&rt, "a file");
        check_database(&rt, &rt, &file, *clashes);
    }
    check_database(&rt, &rt, &folder, false);
    let missing = path_in(&rt, &rt, &folder, "missing");
    check_database(&rt, &rt, &missing, false);
    remove(&rt, &rt, &folder);
}
